// The printed lines that are no items of a session. Two of them also print themselves, without memory.
#![tactic(auto)]

ghost use Rattle.std.specs.Prelude.{◌≡◌, IfOk, Some, string_bytes};
ghost use Rattle.notes.specs.Notes.{not_understood, no_session, stores_differ, atom_text};

use std::alloc::{AllocError, Global};
use std::fmt;

// A line, by its number, that is no request.
#[derive(Clone, Copy, Debug, PartialEq, Eq)]
pub struct NotUnderstood {
    pub line: u64,
}

impl fmt::Display for NotUnderstood {
    ghost output = { λ n. Some (not_understood n.line) };

    fn fmt<W: fmt::Write>(&self, f: &mut fmt::Formatter<W>) -> fmt::Result {
        let line = self.line;
        write!(f, "line {line}: not understood")
    }
}

// A line, by its number, that asks something before any session is opened.
#[derive(Clone, Copy, Debug, PartialEq, Eq)]
pub struct NoSession {
    pub line: u64,
}

impl fmt::Display for NoSession {
    ghost output = { λ n. Some (no_session n.line) };

    fn fmt<W: fmt::Write>(&self, f: &mut fmt::Formatter<W>) -> fmt::Result {
        let line = self.line;
        write!(f, "line {line}: no session")
    }
}

// Of a line that is no request.
pub fn not_understood(heap: Global, line: u64) -> Result<String, AllocError>
    ensures { IfOk result (λ s. string_bytes s ≡ not_understood line) }
{
    NotUnderstood { line }.to_string(heap)
}

// Of a request before any session is opened.
pub fn no_session(heap: Global, line: u64) -> Result<String, AllocError>
    ensures { IfOk result (λ s. string_bytes s ≡ no_session line) }
{
    NoSession { line }.to_string(heap)
}

// Where two stores answered otherwise.
pub fn stores_differ(heap: Global) -> Result<String, AllocError>
    ensures { IfOk result (λ s. string_bytes s ≡ stores_differ) }
{
    String::from_str(heap, "stores differ")
}

// The atom of a name.
pub fn atom_text(heap: Global, atom: u8) -> Result<String, AllocError>
    ensures { IfOk result (λ s. string_bytes s ≡ atom_text atom) }
{
    format!(in heap; "atom {atom}")
}
