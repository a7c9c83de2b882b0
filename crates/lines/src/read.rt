ghost use Rattle.std.specs.Prelude.{◌≡◌, ℕ, ◌+◌, ◌*◌, ◌≤◌, length, take, drop, Decides, MatchOption};
ghost use Rattle.lines.specs.Format.{line_of, line_number, reaches, trailer_of, mark, Ends};

use crate::line::{Line, MARK, Trailer};

// The N bytes from `at` on.
fn bytes<const N: usize>(part: &[u8], at: usize) -> [u8; N]
    requires { at + N ≤ length part.now }
    ensures { result ≡ take N (drop at part.now) }
{
    *part[at..].first_chunk().unwrap()
}

// The line that 24 bytes write.
fn line(part: &[u8]) -> Line
    requires { length part.now ≡ 24 }
    ensures { result ≡ line_of part.now }
{
    Line {
        positive: u64::from_be_bytes(bytes(part, 0)),
        negative: u64::from_be_bytes(bytes(part, 8)),
        first: u32::from_be_bytes(bytes(part, 16)),
        second: u32::from_be_bytes(bytes(part, 20)),
    }
}

// Whether the bytes reach to the end of line k; there is no line 0.
pub(crate) fn has_line(trace: &[u8], k: u32) -> bool
    ensures { result ≡ reaches trace.now k }
{
    k >= 1 && 24 * k as usize <= trace.len()
}

// Line k of the trace, from 1, or nothing where the bytes do not reach so far.
pub fn line_at(trace: &[u8], k: u32) -> Option<Line>
    ensures { result ≡ line_number trace.now k }
{
    let end = 24 * k as usize;
    has_line(trace, k).then(|| line(&trace[end - 24..end]))
}

// Whether the part begins with the mark.
fn is_marked(part: &[u8]) -> bool
    ensures { Decides result (take 4 part.now ≡ mark) }
{
    part.starts_with(&MARK)
}

// The numbers of a trailer of 24 bytes.
fn numbers(part: &[u8]) -> Trailer
    requires { length part.now ≡ 24 }
    ensures { result ≡ trailer_of part.now }
{
    Trailer {
        atoms: u32::from_be_bytes(bytes(part, 4)),
        distance: u32::from_be_bytes(bytes(part, 8)),
        last: u32::from_be_bytes(bytes(part, 12)),
        given: u32::from_be_bytes(bytes(part, 16)),
    }
}

// The trailer in the last 24 bytes, or nothing where they are fewer, or do not begin with the mark or end in 0.
pub fn trailer(trace: &[u8]) -> Option<Trailer>
    ensures { MatchOption result ((t : Trailer) → Ends trace.now t → ⊥) (λ t. Ends trace.now t) }
{
    let part: &[u8; 24] = trace.last_chunk()?;
    let closed = u32::from_be_bytes(bytes(part, 20)) == 0;
    (is_marked(part) && closed).then(|| numbers(part))
}
