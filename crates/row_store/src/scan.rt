ghost use Rattle.std.specs.Prelude.{length, MatchOption};
ghost use Rattle.row_store.specs.Seats.{AllTrue, FirstFalse};

use crate::slot::Slot;

// The first record whose clause is false.
pub(crate) fn first_false(records: &[Slot], valuation: u64) -> Option<usize>
    ensures { MatchOption result (AllTrue records.now 0 (length records.now) valuation) (λ i. FirstFalse records.now 0 valuation i) }
{
    records.iter().position(|record| record.fails(valuation))
}
