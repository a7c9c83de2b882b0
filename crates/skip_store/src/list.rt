// Walks along the links, from the head or an entry on.
ghost use Rattle.std.specs.Prelude.{◌≡◌, ◌-◌, ◌<◌, ◌≤◌, length, MatchOption, nat_lt, slice_index_or};
ghost use Rattle.clause.specs.Order.{Compares, clause_cmp};
ghost use Rattle.store.specs.Held.{blank};
ghost use Rattle.skip_store.specs.Lists.{spots};
ghost use Rattle.skip_store.specs.Links.{spot_of, On, Next, Prev, Preds, Lacks, Holds, fails};

use crate::links::LEVELS;
use crate::skips::SkipStore;
use clause::words::Clause;
use std::cmp::Ordering;
use store::entry::Entry;

impl SkipStore<'_> {
    // The record of entry k. Entry numbers are plain: their bound is the store's, which a type of the number alone cannot name.
    fn record(&self, k: u16) -> Entry
        requires { (0 < k) × (k ≤ length self.now.records.now) }
        ensures { result ≡ slice_index_or self.now.records.now (k - 1) blank }
    {
        self.records[k as usize - 1]
    }

    // How entry k compares with the clause.
    fn order(&self, k: u16, clause: &Clause) -> Ordering
        requires { (0 < k) × (k ≤ length self.now.records.now) }
        ensures value { result ≡ clause_cmp (slice_index_or self.now.records.now (k - 1) blank).clause clause.now }
        ensures spots { Compares (spots self.now k) (spot_of clause.now) result }
    {
        self.record(k).clause.cmp(clause)
    }

    // Whether entry k comes before the clause.
    fn is_before(&self, k: u16, clause: &Clause) -> bool
        requires { (0 < k) × (k ≤ length self.now.records.now) }
        ensures { result ≡ nat_lt (spots self.now k) (spot_of clause.now) }
    {
        self.order(k, clause).is_lt()
    }

    // Whether entry k is false under the valuation.
    pub(crate) fn fails(&self, k: u16, valuation: u64) -> bool
        requires { (0 < k) × (k ≤ length self.now.records.now) }
        ensures { result ≡ fails self.now.records.now valuation k }
    {
        !self.record(k).clause.is_true(valuation)
    }

    // The entry after j, or after the head for 0, on a level.
    pub(crate) fn follower(&self, j: u16, level: usize) -> Option<u16>
        requires entry { j ≤ self.now.size }
        requires level { (level < 15) × (On level j) }
        ensures { MatchOption result (Next (spots self.now) self.now.size level j 0) (λ k. (0 < k) × Next (spots self.now) self.now.size level j k) }
    {
        let k = self.links.of(j, level);
        (k != 0).then_some(k)
    }

    // The last entry before the clause on a level, from one that is before it.
    fn last_before(&self, from: u16, level: usize, clause: &Clause) -> u16
        requires level { level < 15 }
        requires start { from ≤ self.now.size }
        requires on { On level from }
        requires before { spots self.now from < spot_of clause.now }
        ensures { Prev (spots self.now) self.now.size level (spot_of clause.now) result }
    {
        let mut last = from;
        while let Some(k) = self.follower(last, level) {
            if !self.is_before(k, clause) {
                return last;
            }
            last = k;
        }
        last
    }

    // The last entry before the clause on each level, or the head: from the highest level down.
    pub(crate) fn all_before(&self, clause: &Clause) -> [u16; LEVELS]
        ensures { Preds self.now.records.now self.now.size (spot_of clause.now) result }
    {
        let mut before = [0; LEVELS];
        let mut last = 0;
        // Kept a range of levels: after `before.iter_mut().enumerate().rev()` a proof knows nothing of the elements
        for level in (0..LEVELS).rev() {
            last = self.last_before(last, level, clause);
            before[level] = last;
        }
        before
    }

    // The entry after `prev`, the last one before the clause, if it has the clause.
    pub(crate) fn held_after(&self, prev: u16, clause: &Clause) -> Option<u16>
        requires { Prev (spots self.now) self.now.size 0 (spot_of clause.now) prev }
        ensures { MatchOption result (Lacks self.now.records.now self.now.size (spot_of clause.now)) (λ k. Holds self.now.records.now self.now.size clause.now k) }
    {
        let k = self.follower(prev, 0)?;
        self.order(k, clause).is_eq().then_some(k)
    }
}
