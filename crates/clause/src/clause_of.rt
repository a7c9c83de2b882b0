ghost use Rattle.std.specs.Prelude.{◌≡◌, MatchOption, ◌==◌, bit_and, bit_or};
ghost use Rattle.clause.specs.Clauses.{clause_of, lits, same, top, Shares};

use crate::words::Clause;

impl Clause {
    // The clause without a literal.
    pub fn empty() -> Clause
        ensures { lits result ≡ record { pos = 0; neg = 0 } }
    {
        Clause {
            positive: 0,
            negative: 0,
        }
    }

    // The clause of two words of atoms, or nothing where an atom stands in both.
    pub fn of_words(positive: u64, negative: u64) -> Option<Clause>
        ensures value { result ≡ clause_of (record { pos = positive; neg = negative }) }
        ensures atoms { MatchOption result (Shares positive negative) (λ c. lits c ≡ record { pos = positive; neg = negative }) }
    {
        if are_apart(positive, negative) {
            Some(Clause { positive, negative })
        } else {
            None
        }
    }

    // The word of the atoms that stand positive.
    pub fn positive(&self) -> u64
        ensures { result ≡ self.now.positive }
    {
        self.positive
    }

    // The word of the atoms that stand negative.
    pub fn negative(&self) -> u64
        ensures { result ≡ self.now.negative }
    {
        self.negative
    }

    pub fn is_empty(&self) -> bool
        ensures { result ≡ (top (lits self.now) == 0) }
    {
        self.atoms() == 0
    }

    // The word of the atoms that stand in the clause, in either sign.
    pub(crate) fn atoms(&self) -> u64
        ensures { result ≡ bit_or self.now.positive self.now.negative }
    {
        self.positive | self.negative
    }

    // The derived equality, which has no clauses of its own: whether the two clauses have the same literals.
    pub fn same(&self, other: &Clause) -> bool
        ensures { result ≡ same self.now other.now }
    {
        self == other
    }
}

// Whether no atom stands in both words.
fn are_apart(positive: u64, negative: u64) -> bool
    ensures { result ≡ (bit_and positive negative == 0) }
{
    positive & negative == 0
}
