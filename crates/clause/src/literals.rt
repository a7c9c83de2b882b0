ghost use Rattle.std.specs.Prelude.{◌≡◌, ℕ, ◌≤◌, pos, IfOk, if◌then◌else◌, None, unsigned_abs};
ghost use Rattle.clause.specs.Clauses.{lits};
ghost use Rattle.clause.specs.Reading.{grown, reads, clear, outside, Lists};
ghost use Rattle.clause.specs.Refusals.{answer};

use crate::refusal::Refusal;
use crate::resolve::word_of;
use crate::words::Clause;

impl Clause {
    // The clause with one literal more, or nothing where its atom would stand in both signs.
    fn grow(&self, literal: i32, atom: u32) -> Option<Clause>
        requires { atom ≤ 64 }
        ensures { result ≡ grown self.now literal atom }
    {
        let word = word_of(atom);
        if literal < 0 {
            Clause::of_words(self.positive, self.negative | word)
        } else {
            Clause::of_words(self.positive | word, self.negative)
        }
    }

    // The clause with one literal more, or nothing where its atom is none of 1 to 64 or would stand in both signs.
    pub fn with_literal(&self, literal: i32) -> Option<Clause>
        ensures { result ≡ (if outside 64 (unsigned_abs literal) then None else grown self.now literal (unsigned_abs literal)) }
    {
        let atom = literal.unsigned_abs();
        if is_outside(atom, 64) {
            return None;
        }
        self.grow(literal, atom)
    }

    // The clause of the literals, of atoms 1 to the lesser of `atoms` and 64; repeats count once, and the first faulty literal decides.
    pub fn of_literals(literals: &[i32], atoms: u32) -> Result<Clause, Refusal>
        ensures value { answer result ≡ reads atoms 0 clear literals.now }
        ensures atoms { IfOk result (λ c. Lists literals.now (lits c)) }
    {
        let mut clause = Clause::empty();
        for (i, l) in literals.iter().enumerate() {
            let atom = l.unsigned_abs();
            if is_outside(atom, atoms) {
                return Err(Refusal::OutOfRange(i));
            }
            clause = clause.grow(*l, atom).ok_or(Refusal::BothSigns(i))?;
        }
        Ok(clause)
    }
}

// Whether the atom is none of those from 1 to the lesser of `atoms` and 64.
pub fn is_outside(atom: u32, atoms: u32) -> bool
    ensures { result ≡ outside atoms atom }
{
    atom == 0 || atom > atoms.min(64)
}
