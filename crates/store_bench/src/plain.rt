// The baseline: entries by arrival in an array, and every question a scan over it.
ghost use Rattle.std.specs.Prelude.{◌≡◌, [], ◌∷◌, ◌++◌, length, position, Some, MatchOption};
ghost use Rattle.clause.specs.Clauses.{same};

use clause::words::Clause;
use std::alloc::Global;
use store::entry::Entry;

#[derive(Drop)]
pub struct Plain {
    entries: Vec<Entry>,
}

impl Plain {
    pub fn new(heap: Global) -> Plain
        ensures { result.entries.items ≡ [] }
    {
        Plain {
            entries: Vec::new(heap),
        }
    }

    // The index of the clause.
    pub fn find(&self, clause: &Clause) -> Option<usize>
        ensures { result ≡ position (λ e. same e.clause clause.now) self.now.entries.items }
    {
        self.entries
            .iter()
            .position(|entry| entry.clause == *clause)
    }

    // Adds an entry without looking whether it is held; its index.
    pub fn push(&mut self, entry: Entry) -> Option<usize>
        ensures { MatchOption result (self.new.entries.items ≡ self.old.entries.items) (λ i. (i ≡ length self.old.entries.items) × (self.new.entries.items ≡ self.old.entries.items ++ entry ∷ [])) }
    {
        let size = self.entries.len();
        self.entries.push(entry).is_ok().then_some(size)
    }

    // The index of the entry's clause, which is added unless it is held.
    pub fn put(&mut self, entry: Entry) -> Option<usize>
        ensures { MatchOption (position (λ e. same e.clause entry.clause) self.old.entries.items) (MatchOption result (self.new.entries.items ≡ self.old.entries.items) (λ i. (i ≡ length self.old.entries.items) × (self.new.entries.items ≡ self.old.entries.items ++ entry ∷ []))) (λ k. (result ≡ Some k) × (self.new.entries.items ≡ self.old.entries.items)) }
    {
        if let Some(i) = self.find(&entry.clause) {
            return Some(i);
        }
        self.push(entry)
    }

    // The index of the first clause in clause order that is false.
    pub fn least_false(&self, valuation: u64) -> Option<usize> {
        // Kept a loop: with `filter` and `min_by_key` the scan counted 8 to 10 % more instructions, and the baseline is to be as fast as it was.
        let mut least = None;
        let mut first = Clause::empty();
        for (i, entry) in self.entries.iter().enumerate() {
            let clause = entry.clause;
            if !clause.is_true(valuation) && (least.is_none() || clause < first) {
                least = Some(i);
                first = clause;
            }
        }
        least
    }
}
