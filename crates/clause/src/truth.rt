ghost use Rattle.std.specs.Prelude.{◌≡◌, ℕ, ◌-◌, ◌/◌, ◌^◌, ◌<◌, ◌≤◌, Bool, ◌==◌, bit_and, bit_or, bit_xor};
ghost use Rattle.std.specs.Int.Count.{count_leading_zeros};
ghost use Rattle.clause.specs.Clauses.{lits, makes, top};
ghost use Rattle.clause.specs.Words.{at};

use crate::words::Clause;

impl Clause {
    // Whether the clause is true where the atoms of the word are true and all others false.
    pub fn is_true(&self, valuation: u64) -> bool
        ensures { result ≡ makes valuation (lits self.now) }
    {
        self.true_atoms(valuation) != 0
    }

    // The word of the atoms whose literals are true.
    fn true_atoms(&self, valuation: u64) -> u64
        ensures { result ≡ bit_or (bit_and self.now.positive valuation) (bit_and self.now.negative (bit_xor self.now.negative valuation)) }
    {
        (self.positive & valuation) | (self.negative & (self.negative ^ valuation))
    }

    // The highest atom, 0 for the empty clause.
    pub fn highest(&self) -> u32
        ensures value { result ≡ top (lits self.now) }
        ensures bound { result ≤ 64 }
    {
        highest_in(self.atoms())
    }

    // Whether the atom stands positive in the clause; none outside 1 to 64 does.
    pub fn has_positive(&self, atom: u32) -> bool
        ensures { result ≡ at self.now.positive atom }
    {
        stands(self.positive, atom)
    }

    // Whether the atom stands negative in the clause; none outside 1 to 64 does.
    pub fn has_negative(&self, atom: u32) -> bool
        ensures { result ≡ at self.now.negative atom }
    {
        stands(self.negative, atom)
    }
}

// The highest atom of the word, 0 where it has none.
pub(crate) fn highest_in(word: u64) -> u32
    ensures value { result ≡ 64 - count_leading_zeros 64 word }
    ensures bound { result ≤ 64 }
{
    64 - word.leading_zeros()
}

// Whether the atom stands in the word.
pub fn stands(word: u64, atom: u32) -> bool
    ensures { result ≡ at word atom }
{
    if atom == 0 || atom > 64 {
        return false;
    }
    is_set(word, atom)
}

fn is_set(word: u64, atom: u32) -> bool
    requires { (0 < atom) × (atom ≤ 64) }
    ensures { result ≡ (bit_and (word / 2 ^ (atom - 1)) 1 == 1) }
{
    (word >> (atom - 1)) & 1 == 1
}
