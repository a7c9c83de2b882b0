ghost use Rattle.std.specs.Prelude.{◌≡◌, ℕ, ◌≤◌, MatchOption, bit_and, bit_xor};
ghost use Rattle.clause.specs.Clauses.{lits, top, resolvent, Clashes, Resolves};
ghost use Rattle.clause.specs.Words.{one};

use crate::words::Clause;

// The word of the one atom, 0 for atom 0.
pub(crate) fn word_of(atom: u32) -> u64
    requires { atom ≤ 64 }
    ensures { result ≡ one atom }
{
    if atom == 0 {
        return 0;
    }
    1 << (atom - 1)
}

// The word without the atom.
fn take_out(word: u64, atom: u32) -> u64
    requires { atom ≤ 64 }
    ensures { result ≡ bit_xor word (bit_and word (one atom)) }
{
    word ^ (word & word_of(atom))
}

impl Clause {
    // This clause without p joined with the other without -p, where p is the other's highest atom; nothing where an atom would stand in both signs.
    pub fn resolve(&self, other: &Clause) -> Option<Clause>
        ensures value { result ≡ resolvent self.now other.now }
        ensures atoms { MatchOption result (Clashes (lits self.now) (lits other.now) (top (lits other.now))) (λ d. Resolves (lits self.now) (lits other.now) (top (lits other.now)) (lits d)) }
    {
        let p = other.highest();
        let positive = take_out(self.positive, p) | other.positive;
        let negative = self.negative | take_out(other.negative, p);
        Clause::of_words(positive, negative)
    }
}
