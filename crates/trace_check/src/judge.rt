ghost use Rattle.std.specs.Prelude.{◌≡◌, true, false, is_ok, Decides, Result as Either};
ghost use Rattle.clause.specs.Refusals.{Told, answer};
ghost use Rattle.trace_check.specs.Checks.{Sound, Outcome, waiting};
ghost use Rattle.trace_check.specs.Meaning.{Refutes};

use crate::check::{ClosedCheck, OpenCheck};
use clause::refusal::Refusal;

// Opens a check of the bytes, takes lines until the last or a fault, and closes it.
fn taken_whole<'a>(trace: &'a [u8]) -> ClosedCheck<'a>
    ensures bytes { result.check.claim.trace.now ≡ trace.now }
    ensures done { waiting result.check.claim.last result.check.taken result.check.fault ≡ false }
{
    let mut check = OpenCheck::open(trace);
    while check.waits() {
        let _ = check.take();
    }
    check.close()
}

// Takes a trace whole and judges it.
pub fn judge_trace(trace: &[u8]) -> Result<(), Refusal>
    ensures exact { Decides (is_ok result) (Sound trace.now) }
    ensures outcome { Outcome trace.now (answer result) }
    ensures only { (a : Either (Unit {0}) Told) → Outcome trace.now a → a ≡ answer result }
    ensures refutes { is_ok result ≡ true → Refutes trace.now }
{
    taken_whole(trace).judge()
}
