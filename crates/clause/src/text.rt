ghost use Rattle.std.specs.Prelude.{◌≡◌, ◌≤◌, Some};
ghost use Rattle.clause.specs.Texts.{literal_at, literals_of, spelled};

use crate::words::Clause;
use std::fmt;

impl Clause {
    // The literal of the clause at the atom, if it has one.
    fn literal(&self, atom: u32) -> Option<i32>
        requires { atom ≤ 64 }
        ensures { result ≡ literal_at self.now atom }
    {
        if self.has_positive(atom) {
            Some(atom as i32)
        } else if self.has_negative(atom) {
            Some(-(atom as i32))
        } else {
            None
        }
    }
}

// The literals in order of atoms, with one space between each two.
impl fmt::Display for Clause {
    ghost output = { λ c. Some (spelled (literals_of c)) };

    fn fmt<W: fmt::Write>(&self, f: &mut fmt::Formatter<W>) -> fmt::Result {
        let mut space = "";
        for atom in 1..65 {
            let Some(literal) = self.literal(atom) else {
                continue;
            };
            write!(f, "{space}{literal}")?;
            space = " ";
        }
        Ok(())
    }
}
