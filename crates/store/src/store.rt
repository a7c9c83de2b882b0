ghost use Rattle.std.specs.Prelude.{◌≡◌, ℕ};
ghost use Rattle.clause.specs.Refusals.{answer};
ghost use Rattle.store.specs.Held.{Held, Kept, entry_at, size, found, after_put, put_answer, least_false};

use crate::entry::Entry;
use clause::refusal::Refusal;
use clause::words::Clause;

// Clauses numbered from 1 by arrival, none twice, in a fixed count of places. Questions alter nothing.
pub trait ClauseStore {
    // What the store means: its entries in order of arrival, and its places.
    ghost held: { Self → Held };

    // What every store keeps: entries within the places, at most 16,384 of them, no clause twice.
    ghost kept: { (s : Self) → Kept (held s) };

    fn size(&self) -> u16
        ensures { result ≡ size (held self.now) };

    fn places(&self) -> u16
        ensures { result ≡ (held self.now).places };

    // The entry with the number, nothing outside 1 to the size.
    fn entry(&self, number: u16) -> Option<Entry>
        ensures { result ≡ entry_at (held self.now).entries number };

    // The number of the clause, nothing where it is not held.
    fn find(&self, clause: &Clause) -> Option<u16>
        ensures { result ≡ found (held self.now) clause.now };

    // The number of the clause: where it is held nothing alters; else it takes the next number, or is refused where no place is free.
    fn put(&mut self, entry: Entry) -> Result<u16, Refusal>
        ensures answers { answer result ≡ put_answer (held self.old) entry }
        ensures after { held self.new ≡ after_put (held self.old) entry };

    // The number of the first clause in clause order that is false, nothing where none is.
    fn least_false(&self, valuation: u64) -> Option<u16>
        ensures { result ≡ least_false (held self.now) valuation };
}
