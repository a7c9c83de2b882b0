ghost use Rattle.std.specs.Prelude.{◌≡◌, bit_and};

// Atoms are plain numbers, here and in the crates above, and their bound is asked where it is needed: 0 stands for no atom throughout (the highest atom of the
// empty clause), so a type for the numbers up to 64 would be taken apart at nearly every use.

// A set of literals in which no atom stands in both signs: atom a is worth 2^(a - 1) in either word. Equal clauses have the same literals.
#[derive(Clone, Copy, Debug, PartialEq, Eq)]
pub struct Clause {
    pub(crate) positive: u64,
    pub(crate) negative: u64,
    ghost apart: { bit_and positive negative ≡ 0 },
}

impl Clause {
    ghost use Rattle.clause.specs.Clauses.{Words};

    // Tells the proofs that the words have 64 atoms: of a number in a struct only a read says that it fits its type.
    pub fn words_fit(&self)
        ensures { Words self.now }
    {
        let _positive = self.positive;
        let _negative = self.negative;
    }
}
