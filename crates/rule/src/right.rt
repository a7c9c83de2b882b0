ghost use Rattle.std.specs.Prelude.{◌≡◌, ◌&&◌, Decides};
ghost use Rattle.rule.specs.Tests.{is_bare, clause_within, passes};
ghost use Rattle.rule.specs.Rule.{Right};

use crate::derived::is_derived;
use clause::words::Clause;
use lines::line::Line;
use lines::read::line_at;

// Whether both numbers of the line are 0.
pub fn is_bare(line: Line) -> bool
    ensures { result ≡ is_bare line }
{
    line.first == 0 && line.second == 0
}

// The clause of the line, or nothing where an atom stands in both signs or is above `atoms`.
fn clause_within(line: Line, atoms: u32) -> Option<Clause>
    ensures { result ≡ clause_within atoms line }
{
    Clause::of_words(line.positive, line.negative).filter(|clause| clause.highest() <= atoms)
}

// What a trace is taken for: its bytes, the count of its atoms, and the number of its last line.
#[derive(Clone, Copy)]
pub struct Claim<'a> {
    pub trace: &'a [u8],
    pub atoms: u32,
    pub last: u32,
}

impl<'a> Claim<'a> {
    // Whether line k passes every test. Kept `let .. else`: with `is_some_and` each test would stand inside the closure of the one before it.
    fn passes(self, k: u32) -> bool
        ensures { result ≡ passes self.entry.trace.now self.entry.atoms self.entry.last k }
    {
        let Some(line) = line_at(self.trace, k) else {
            return false;
        };
        let Some(clause) = clause_within(line, self.atoms) else {
            return false;
        };
        if clause.is_empty() != (k == self.last) {
            return false;
        }
        is_bare(line) && !clause.is_empty() || is_derived(self.trace, k, line)
    }

    // Whether line k is right.
    pub fn is_right(self, k: u32) -> bool
        ensures { Decides result (Right self.entry.trace.now self.entry.atoms self.entry.last k) }
    {
        self.passes(k)
    }
}
