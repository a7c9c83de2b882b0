ghost use Rattle.std.specs.Prelude.{◌≡◌, ◌+◌, ◌*◌, ◌/◌, ◌<◌, ◌≤◌, min, [], length, take, drop, ◌==◌, slice_set};
ghost use Rattle.clause.specs.Refusals.{answer};
ghost use Rattle.store.specs.Held.{put_answer, after_put};
ghost use Rattle.skip_store.specs.Keeps.{keeps};
ghost use Rattle.skip_store.specs.Links.{Vacant, held_of, spot, spot_of, Apart, Chained, Preds, Lacks};
ghost use Rattle.skip_store.specs.Props.{chained_prop};

use crate::links::{LEVELS, Links};
use clause::refusal::Refusal;
use clause::words::Clause;
use store::entry::Entry;
use store::store::ClauseStore;

// Records by arrival, entry k, from 1, at k - 1, and their links: on each level the entries of that level are linked in clause order.
// Of the lent memory it uses one record and two links a place. Kept slices with two counts: the caller lends the memory.
#[derive(Drop)]
pub struct SkipStore<'a> {
    pub(crate) records: &'a mut [Entry],
    pub(crate) links: Links<'a>,
    pub(crate) size: u16,
    pub(crate) places: u16,
    ghost within: { size ≤ places },
    ghost fits: { places ≤ length records.now },
    ghost room: { 2 * places ≤ length links.lent.now },
    ghost few: { places ≤ 16384 },
    ghost tall: { length links.head ≡ 15 },
    ghost apart: { Apart (spot records.now) size },
    ghost linked: { Chained records.now links.head links.lent.now size } by { chained_prop records.now links.head links.lent.now size },
}

// A record that holds nothing, to make records of.
pub fn blank() -> Entry
    ensures { Vacant result }
{
    Entry::given(Clause::empty())
}

// How many links so many places take.
pub fn links_for(places: u16) -> usize
    ensures { result ≡ 2 * places }
{
    2 * places as usize
}

// How many entries have a place: one record and two links each, and at most 16,384.
fn places_in(records: usize, links: usize) -> u16
    ensures { result ≡ min records (min (links / 2) 16384) }
{
    records.min(links / 2).min(16384) as u16
}

impl<'a> SkipStore<'a> {
    ghost use Rattle.skip_store.specs.Lists.{meaning};

    // An empty store in the lent memory: as many places as there are records, pairs of links, and numbers up to 16,384.
    pub fn new(records: &'a mut [Entry], links: &'a mut [u16]) -> SkipStore<'a>
        ensures entries { (meaning result).entries ≡ [] }
        ensures places { result.places ≡ min (length records.old) (min (length links.old / 2) 16384) }
        ensures records { result.records.now ≡ records.old }
        ensures links { result.links.lent.now ≡ links.old }
        ensures lender { (result.records.ghost_name ≡ records.entry.ghost_name) × (result.links.lent.ghost_name ≡ links.entry.ghost_name) }
    {
        let places = places_in(records.len(), links.len());
        SkipStore {
            records,
            links: Links::new(links),
            size: 0,
            places,
        }
    }
}

impl SkipStore<'_> {
    // The entries, by arrival.
    fn entries(&self) -> &[Entry]
        ensures { result.now ≡ take self.now.size self.now.records.now }
    {
        &self.records[..self.size as usize]
    }

    // Whether no place is free.
    fn is_full(&self) -> bool
        ensures { result ≡ (self.now.size == self.now.places) }
    {
        self.size == self.places
    }

    // Writes an entry behind the others, and joins it in after its predecessors.
    fn append(&mut self, entry: Entry, before: &[u16; LEVELS])
        requires free { self.old.size < self.old.places }
        requires new { Lacks self.old.records.now self.old.size (spot_of entry.clause) }
        requires preds { Preds self.old.records.now self.old.size (spot_of entry.clause) before.now }
        ensures size { self.new.size ≡ self.old.size + 1 }
        ensures places { self.new.places ≡ self.old.places }
        ensures records { self.new.records.now ≡ slice_set self.old.records.now self.old.size entry }
        ensures links { drop (2 * self.new.size) self.new.links.lent.now ≡ drop (2 * self.new.size) self.old.links.lent.now }
        ensures lender { (self.new.records.ghost_name ≡ self.old.records.ghost_name) × (self.new.links.lent.ghost_name ≡ self.old.links.lent.ghost_name) }
    {
        let size = self.size;
        self.records[size as usize] = entry;
        self.links.join(size + 1, before);
        self.size = size + 1;
    }
}

impl ClauseStore for SkipStore<'_> {
    ghost use Rattle.skip_store.specs.Lists.{meaning};

    ghost held = { λ s. held_of s.records.now s.size s.places };

    ghost kept = { λ s. keeps s.records.now s.size s.places s.within s.fits s.few s.apart };

    fn size(&self) -> u16 {
        self.size
    }

    fn places(&self) -> u16 {
        self.places
    }

    fn entry(&self, number: u16) -> Option<Entry> {
        let index = number.checked_sub(1)?;
        self.entries().get(index as usize).copied()
    }

    fn find(&self, clause: &Clause) -> Option<u16> {
        let before = self.all_before(clause);
        self.held_after(before[0], clause)
    }

    // Beside the trait's promise: the records and links past those of the entries, and so past the places, stay as they were, and the same memory stays lent.
    fn put(&mut self, entry: Entry) -> Result<u16, Refusal>
        ensures answers { answer result ≡ put_answer (meaning self.old) entry }
        ensures after { meaning self.new ≡ after_put (meaning self.old) entry }
        ensures records { drop self.new.size self.new.records.now ≡ drop self.new.size self.old.records.now }
        ensures links { drop (2 * self.new.size) self.new.links.lent.now ≡ drop (2 * self.new.size) self.old.links.lent.now }
        ensures lender { (self.new.records.ghost_name ≡ self.old.records.ghost_name) × (self.new.links.lent.ghost_name ≡ self.old.links.lent.ghost_name) }
    {
        let before = self.all_before(&entry.clause);
        if let Some(k) = self.held_after(before[0], &entry.clause) {
            return Ok(k);
        }
        if self.is_full() {
            return Err(Refusal::NoPlaceFree);
        }
        self.append(entry, &before);
        Ok(self.size)
    }

    // A walk along the lowest level, from the head on.
    fn least_false(&self, valuation: u64) -> Option<u16> {
        let mut last = 0;
        while let Some(k) = self.follower(last, 0) {
            if self.fails(k, valuation) {
                return Some(k);
            }
            last = k;
        }
        None
    }
}
