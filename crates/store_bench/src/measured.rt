ghost use Rattle.std.specs.Prelude.{◌≡◌, ◌+◌, ◌-◌, ◌^◌, min, MatchOption};

use crate::plain::Plain;
use clause::words::Clause;
use store::entry::Entry;
use store::store::ClauseStore;

// What is measured. Each answer becomes a number that the caller adds up, so that no call can be left out.
pub trait Measured {
    // Adds an entry whose clause is not held, before the measurement.
    fn fill(&mut self, entry: Entry) -> u64;

    fn look(&self, clause: &Clause) -> u64;

    fn add(&mut self, entry: Entry) -> u64;

    fn least(&self, valuation: u64) -> u64;
}

// The number, 0 for none.
fn number(answer: Option<u16>) -> u64
    ensures { MatchOption answer (result ≡ 0) (λ k. result ≡ k) }
{
    answer.map_or(0, u64::from)
}

// The number of an index, which counts from 0, and 0 for none.
fn index(answer: Option<usize>) -> u64
    ensures { MatchOption answer (result ≡ 0) (λ i. result ≡ min (i + 1) (2 ^ 64 - 1)) }
{
    answer.map_or(0, |i| (i as u64).saturating_add(1))
}

// A clause store that is measured.
#[derive(Drop)]
pub struct Stored<S>(pub S);

impl<S: ClauseStore> Measured for Stored<S> {
    fn fill(&mut self, entry: Entry) -> u64 {
        self.add(entry)
    }

    fn look(&self, clause: &Clause) -> u64 {
        number(self.0.find(clause))
    }

    fn add(&mut self, entry: Entry) -> u64 {
        number(self.0.put(entry).ok())
    }

    fn least(&self, valuation: u64) -> u64 {
        number(self.0.least_false(valuation))
    }
}

impl Measured for Plain {
    fn fill(&mut self, entry: Entry) -> u64 {
        index(self.push(entry))
    }

    fn look(&self, clause: &Clause) -> u64 {
        index(self.find(clause))
    }

    fn add(&mut self, entry: Entry) -> u64 {
        index(self.put(entry))
    }

    fn least(&self, valuation: u64) -> u64 {
        index(self.least_false(valuation))
    }
}
