ghost use Rattle.std.specs.Prelude.{◌≡◌, ℕ, ◌*◌, ◌<◌, ◌≤◌, ◌&&◌, cond, Some, None, length, ◌==◌, bit_and, count_ones};
ghost use Rattle.lines.specs.Format.{literals, line_at};
ghost use Rattle.rule.specs.Tests.{is_earlier, is_joined, resolves, is_derived};

use lines::line::Line;
use lines::read::line_at;

// Whether j is the number of a line before line k.
fn is_earlier(j: u32, k: u32) -> bool
    ensures { result ≡ is_earlier j k }
{
    j >= 1 && j < k
}

// The word of the atoms that are positive in the first line and negative in the second.
fn cancelled(first: Line, second: Line) -> u64
    ensures { result ≡ bit_and first.positive second.negative }
{
    first.positive & second.negative
}

// Whether the word has just one atom.
fn is_single(word: u64) -> bool
    ensures { result ≡ (count_ones word == 1) }
{
    word.count_ones() == 1
}

// Whether this line is the two joined, without the atoms of the word.
fn is_joined(first: Line, second: Line, line: Line, word: u64) -> bool
    ensures { result ≡ is_joined word (literals first) (literals second) (literals line) }
{
    line.positive == (first.positive | second.positive) ^ word
        && line.negative == (first.negative | second.negative) ^ word
}

// Whether just one atom cancels between the two lines, and this line is both joined without it.
fn resolves(first: Line, second: Line, line: Line) -> bool
    ensures { result ≡ resolves (literals first) (literals second) (literals line) }
{
    let atom = cancelled(first, second);
    is_single(atom) && is_joined(first, second, line, atom)
}

// Line j of the trace, where it lies before line k. That the bytes reach to line k is asked here and above: it ties the number to the slice.
fn line_before(trace: &[u8], j: u32, k: u32) -> Option<Line>
    requires { 24 * k ≤ length trace.now }
    ensures { result ≡ cond (is_earlier j k) (Some (line_at trace.now j)) None }
{
    if is_earlier(j, k) {
        line_at(trace, j)
    } else {
        None
    }
}

// Whether this line, line k of the trace, is derived from two lines before it.
pub(crate) fn is_derived(trace: &[u8], k: u32, line: Line) -> bool
    requires { 24 * k ≤ length trace.now }
    ensures { result ≡ is_derived trace.now k line }
{
    let antecedents = line_before(trace, line.first, k).zip(line_before(trace, line.second, k));
    antecedents.is_some_and(|(first, second)| resolves(first, second, line))
}
