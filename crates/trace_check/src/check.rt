pub mod calls;

ghost use Rattle.std.specs.Prelude.{◌*◌, ◌≤◌, length};
ghost use Rattle.trace_check.specs.Checks.{Stands};

use crate::fault::Fault;
use rule::right::Claim;

// A check that takes lines: what the trailer says of the bytes, the lines taken, and the first fault.
#[derive(Drop)]
pub struct OpenCheck<'a> {
    claim: Claim<'a>,
    taken: u32,
    fault: Option<Fault>,
    ghost within: { taken ≤ claim.last },
    ghost stands: { ∥ Stands claim.trace.now claim.atoms claim.last taken fault ∥₁ },
}

// A check that can only be questioned.
#[derive(Drop)]
pub struct ClosedCheck<'a> {
    check: OpenCheck<'a>,
}
