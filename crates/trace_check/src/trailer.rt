ghost use Rattle.std.specs.Prelude.{◌≡◌, ℕ, ◌-◌, ◌*◌, ◌/◌, ◌≤◌, ◌&&◌, length, MatchOption};
ghost use Rattle.lines.specs.Format.{line_at, reaches};
ghost use Rattle.rule.specs.Tests.{is_bare};
ghost use Rattle.trace_check.specs.Trailers.{givens, sized, counted, agrees, Ended};

use clause::literals::is_outside;
use lines::line::Trailer;
use lines::read::{line_at, trailer};
use rule::right::is_bare;

// Whether a trace may have so many bytes: at least a line and the trailer, at most 16,385 lines, and no part of one.
fn is_sized(length: usize) -> bool
    ensures { result ≡ sized length }
{
    length >= 48 && length <= 393_264 && length % 24 == 0
}

// Whether a session may have so many atoms.
fn is_counted(atoms: u32) -> bool
    ensures { result ≡ counted atoms }
{
    !is_outside(atoms, 64)
}

// Whether the trace has a line k with both numbers 0.
fn is_given(trace: &[u8], k: u32) -> bool
    ensures { result ≡ (reaches trace.now k && is_bare (line_at trace.now k)) }
{
    line_at(trace, k).is_some_and(is_bare)
}

// How many of the first `last` lines have both numbers 0.
fn given_lines(trace: &[u8], last: u32) -> u32
    requires { 24 * last ≤ length trace.now }
    ensures { result ≡ givens trace.now last }
{
    (1..=last).filter(|k| is_given(trace, *k)).count() as u32
}

// Whether the numbers of the trailer are those of the trace.
fn is_agreed(trailer: Trailer, distance: usize, given: u32) -> bool
    ensures { result ≡ agrees trailer distance given }
{
    trailer.distance as usize == distance
        && trailer.last as usize == distance / 24
        && trailer.given == given
}

// The trailer, or nothing where it is wrong.
pub(crate) fn right_trailer(trace: &[u8]) -> Option<Trailer>
    ensures { MatchOption result ((n last : ℕ) → Ended trace.now n last → ⊥) (λ t. Ended trace.now t.atoms t.last) }
{
    if !is_sized(trace.len()) {
        return None;
    }
    let trailer = trailer(trace).filter(|trailer| is_counted(trailer.atoms))?;
    let distance = trace.len() - 24;
    let given = given_lines(trace, (distance / 24) as u32);
    is_agreed(trailer, distance, given).then_some(trailer)
}
