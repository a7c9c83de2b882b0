ghost use Rattle.std.specs.Prelude.{◌≡◌, ◌≤◌, Some};
ghost use Rattle.reply.specs.Texts.{true_at, true_of};
ghost use Rattle.clause.specs.Texts.{spelled};

use clause::truth::stands;
use std::fmt;

// A valuation of atoms 1 to `atoms`: the word of the true ones.
#[derive(Clone, Copy, Debug, PartialEq, Eq)]
pub struct Valuation {
    pub word: u64,
    pub atoms: u32,
}

impl Valuation {
    // The literal of the atom that is true.
    fn literal(&self, atom: u32) -> i32
        requires { atom ≤ 64 }
        ensures { result ≡ true_at self.now.word atom }
    {
        if stands(self.word, atom) {
            atom as i32
        } else {
            -(atom as i32)
        }
    }
}

// The true literals of the atoms, of 64 at most, with one space between each two. Kept a loop beside that of `Display for Clause`: one function over both would be
// public and take a closure, and so require that it may be called, which the rules of the project let no public function do.
impl fmt::Display for Valuation {
    ghost output = { λ v. Some (spelled (true_of v.atoms v.word)) };

    fn fmt<W: fmt::Write>(&self, f: &mut fmt::Formatter<W>) -> fmt::Result {
        let mut space = "";
        for atom in 1..self.atoms.min(64) + 1 {
            let literal = self.literal(atom);
            write!(f, "{space}{literal}")?;
            space = " ";
        }
        Ok(())
    }
}
