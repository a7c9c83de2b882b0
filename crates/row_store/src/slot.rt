ghost use Rattle.clause.specs.Clauses.{Words};

use clause::words::Clause;
use row::Record;
use std::cmp::Ordering;
use store::entry::Entry;

// A record of the store: a clause, the numbers of its antecedents, and its own number by arrival. The clause alone orders records.
// Not an `Entry` with a number: its padding would make the record larger (a record has 24 bytes, as the rules say).
#[derive(Clone, Copy)]
#[derive_where(PartialEq, Eq, PartialOrd, Ord)]
pub struct Slot {
    pub(crate) clause: Clause,
    #[derive_where(skip(EqHashOrd))]
    pub(crate) first: u16,
    #[derive_where(skip(EqHashOrd))]
    pub(crate) second: u16,
    #[derive_where(skip(EqHashOrd))]
    pub(crate) number: u16,
    ghost words: { Words clause },
}

impl Slot {
    ghost use Rattle.std.specs.Prelude.{◌≡◌};
    ghost use Rattle.row_store.specs.Seats.{Vacant, entry_of, fails};

    // A record that holds nothing, to make slots of.
    pub fn blank() -> Slot
        ensures { Vacant result }
    {
        let clause = Clause::empty();
        clause.words_fit();
        Slot {
            clause,
            first: 0,
            second: 0,
            number: 0,
        }
    }

    // The record of an entry with its number.
    pub(crate) fn holding(entry: &Entry, number: u16) -> Slot
        ensures entry { entry_of result ≡ entry.now }
        ensures number { result.number ≡ number }
    {
        entry.clause.words_fit();
        Slot {
            clause: entry.clause,
            first: entry.first,
            second: entry.second,
            number,
        }
    }

    // A record to look for a clause by.
    pub(crate) fn sought(clause: &Clause) -> Slot
        ensures { result.clause ≡ clause.now }
    {
        Slot::holding(&Entry::given(*clause), 0)
    }

    pub(crate) fn entry(&self) -> Entry
        ensures { result ≡ entry_of self.now }
    {
        Entry {
            clause: self.clause,
            first: self.first,
            second: self.second,
        }
    }

    // The number of the entry.
    pub(crate) fn number(&self) -> u16
        ensures { result ≡ self.now.number }
    {
        self.number
    }

    // Whether the clause is false under the valuation.
    pub(crate) fn fails(&self, valuation: u64) -> bool
        ensures { result ≡ fails valuation self.now }
    {
        !self.clause.is_true(valuation)
    }
}

// Records are in clause order.
impl Record for Slot {
    ghost use Rattle.row_store.specs.Seats.{place};

    ghost key = { place };

    fn order(&self, other: &Slot) -> Ordering {
        self.clause.cmp(&other.clause)
    }
}
