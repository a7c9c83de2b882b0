ghost use Rattle.std.specs.Prelude.{◌≡◌, ◌+◌, ◌-◌, ◌<◌, ◌≤◌, min, [], length, drop, slice_index};
ghost use Rattle.clause.specs.Refusals.{answer};
ghost use Rattle.store.specs.Held.{put_answer, after_put};
ghost use Rattle.row_store.specs.Keeps.{keeps};
ghost use Rattle.row_store.specs.Seats.{arrivals, held_of, Enters, Seated, Named, Counted, Returned};

use crate::scan::first_false;
use crate::seats::make_way;
use crate::slot::Slot;
use clause::refusal::Refusal;
use clause::words::Clause;
use row::{Added, Row};
use store::entry::Entry;
use store::store::ClauseStore;

// Records in clause order in the lent slots, each with its number by arrival;
// the seat of number k, at k - 1 of the lent seats, is its position among the records. Kept apart from the records: the caller lends both.
#[derive(Drop)]
pub struct RowStore<'a> {
    row: Row<'a, Slot>,
    seats: &'a mut [u16],
    ghost benches: { row.places ≤ length seats.now },
    ghost few: { row.places ≤ 16384 },
    ghost seated: { Seated seats.now row.size },
    ghost named: { Named row.slots.now seats.now row.size },
    ghost counted: { Counted row.slots.now row.size },
    ghost returned: { Returned row.slots.now seats.now row.size },
}

impl<'a> RowStore<'a> {
    // An empty store in the lent memory: as many places as there are slots, seats, and numbers up to 16,384.
    pub fn new(slots: &'a mut [Slot], seats: &'a mut [u16]) -> RowStore<'a>
        ensures entries { arrivals result.row.slots.now result.seats.now result.row.size ≡ [] }
        ensures places { result.row.places ≡ min (length slots.old) (min (length seats.old) 16384) }
        ensures slots { result.row.slots.now ≡ slots.old }
        ensures seats { result.seats.now ≡ seats.old }
        ensures lender { (result.row.slots.ghost_name ≡ slots.entry.ghost_name) × (result.seats.ghost_name ≡ seats.entry.ghost_name) }
    {
        let row = Row::new(slots, most(seats));
        RowStore { row, seats }
    }

    // How many entries there are.
    fn count(&self) -> u16
        ensures { result ≡ self.now.row.size }
    {
        self.row.size() as u16
    }

    // The position of the record of the entry with the index `k`, from 0.
    fn seat(&self, k: usize) -> u16
        requires { k < length self.now.seats.now }
        ensures { result ≡ slice_index self.now.seats.now k }
    {
        self.seats[k]
    }
}

// How many entries may have a seat.
fn most(seats: &[u16]) -> usize
    ensures { result ≡ min (length seats.now) 16384 }
{
    seats.len().min(16384)
}

// Adds the record of the entry, with its number, to the row.
fn enter(row: &mut Row<'_, Slot>, entry: &Entry, number: u16) -> Added
    ensures enters { Enters row.old.slots.now row.old.size row.old.places entry.now number result row.new.slots.now row.new.size row.new.places }
    ensures lender { row.new.slots.ghost_name ≡ row.old.slots.ghost_name }
{
    row.add(Slot::holding(entry, number))
}

impl ClauseStore for RowStore<'_> {
    ghost held = { λ s. held_of s.row.slots.now s.seats.now s.row.size s.row.places };

    ghost kept = { λ s. keeps s.row.slots.now s.seats.now s.row.size s.row.places (record { within = s.row.within; fits = s.row.fits; benches = s.benches; few = s.few; rising = s.row.ascends; seated = s.seated; named = s.named; counted = s.counted; returned = s.returned }) };

    fn size(&self) -> u16 {
        self.count()
    }

    fn places(&self) -> u16 {
        self.row.places() as u16
    }

    fn entry(&self, number: u16) -> Option<Entry> {
        let index = number.checked_sub(1)?;
        if index >= self.count() {
            return None;
        }
        let seat = self.seat(index as usize);
        let slot = self.row.get(seat as usize)?;
        Some(slot.entry())
    }

    fn find(&self, clause: &Clause) -> Option<u16> {
        let i = self.row.find(&Slot::sought(clause))?;
        Some(self.row.records()[i].number())
    }

    // Beside the trait's promise: what lies past the places stays as it was, and the same memory stays lent.
    fn put(&mut self, entry: Entry) -> Result<u16, Refusal>
        ensures answers { answer result ≡ put_answer (held_of self.old.row.slots.now self.old.seats.now self.old.row.size self.old.row.places) entry }
        ensures after { held_of self.new.row.slots.now self.new.seats.now self.new.row.size self.new.row.places ≡ after_put (held_of self.old.row.slots.now self.old.seats.now self.old.row.size self.old.row.places) entry }
        ensures slots { drop self.old.row.places self.new.row.slots.now ≡ drop self.old.row.places self.old.row.slots.now }
        ensures seats { drop self.old.row.places self.new.seats.now ≡ drop self.old.row.places self.old.seats.now }
        ensures lender { (self.new.row.slots.ghost_name ≡ self.old.row.slots.ghost_name) × (self.new.seats.ghost_name ≡ self.old.seats.ghost_name) }
    {
        let size = self.row.size();
        let number = size as u16 + 1;
        // Lent apart: until a new record has its seat, records and seats do not agree.
        let RowStore { row, seats, .. } = self;
        match enter(row, &entry, number) {
            Added::Held(i) => Ok(self.row.records()[i].number()),
            Added::New(i) => {
                make_way(seats, size, i as u16);
                Ok(number)
            }
            Added::Full => Err(Refusal::NoPlaceFree),
        }
    }

    fn least_false(&self, valuation: u64) -> Option<u16> {
        let records = self.row.records();
        let i = first_false(records, valuation)?;
        Some(records[i].number())
    }
}
