// The clauses of a text, word by word.
ghost use Rattle.std.specs.Prelude.{◌≡◌, ◌<◌};
ghost use Rattle.clause.specs.Reading.{clear};
ghost use Rattle.clause.specs.Refusals.{answer};
ghost use Rattle.dimacs.specs.Reading.{piece};
ghost use Rattle.dimacs.specs.Body.{at_end, at_atom, step};

use crate::numbers::read_literal;
use crate::reader::Word;
use clause::literals::is_outside;
use clause::refusal::Refusal;
use clause::words::Clause;

// How far the clauses of a text are read: the highest atom allowed, the clauses to come, and the literals so far of the first of these.
#[derive(Clone, Copy)]
pub(crate) struct Scan {
    pub(crate) atoms: u32,
    pub(crate) left: u32,
    pub(crate) clause: Clause,
}

impl Scan {
    // A scan before the first literal of a clause.
    pub(crate) fn new(atoms: u32, left: u32) -> Scan
        ensures { result ≡ record { atoms = atoms; left = left; clause = clear } }
    {
        Scan {
            atoms,
            left,
            clause: Clause::empty(),
        }
    }

    // What one word makes of a scan.
    pub(crate) fn take_word(self, word: Word<'_>) -> Result<Scan, Refusal>
        ensures { answer result ≡ step self (piece word.entry) }
    {
        let place = word.place;
        if self.left == 0 {
            return Err(Refusal::ClauseCount(place));
        }
        let literal = read_literal(word.bytes).ok_or(Refusal::MalformedWord(place))?;
        if literal == 0 {
            self.end_clause(place)
        } else {
            self.add_literal(place, literal)
        }
    }

    fn end_clause(self, place: usize) -> Result<Scan, Refusal>
        requires { 0 < self.left }
        ensures { answer result ≡ at_end self place }
    {
        if self.clause.is_empty() {
            return Err(Refusal::NoLiteral(place));
        }
        Ok(Scan::new(self.atoms, self.left - 1))
    }

    fn add_literal(self, place: usize, literal: i32) -> Result<Scan, Refusal>
        ensures { answer result ≡ at_atom self place literal }
    {
        if is_outside(literal.unsigned_abs(), self.atoms) {
            return Err(Refusal::OutOfRange(place));
        }
        let clause = self
            .clause
            .with_literal(literal)
            .ok_or(Refusal::BothSigns(place))?;
        Ok(Scan { clause, ..self })
    }
}
