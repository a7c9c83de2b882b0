ghost use Rattle.std.specs.Prelude.{◌≡◌, ◌-◌, ◌≤◌, true, [], ◌∷◌, ◌++◌, length, replicate};
ghost use Rattle.std.specs.Ordering.{nat_cmp};
ghost use Rattle.std.specs.Cmp.Lexicographic.{slice_cmp};
ghost use Rattle.clause.specs.Order.{Compares};
ghost use Rattle.names.specs.Bytes.{visible, visibles, is_name, naming, rank, ByBytes, OrderLaw};
ghost use Rattle.names.specs.Names.{spelled, spelling};

use crate::name::Name;
use clause::refusal::Refusal;
use std::cmp::Ordering;

// The name that a word is, or the refusal of a word that is none.
impl TryFrom<&[u8]> for Name {
    type Error = Refusal;

    ghost try_from_gives = { λ word result. spelling result ≡ naming word.now };

    fn try_from(word: &[u8]) -> Result<Name, Refusal> {
        if !is_name(word) {
            return Err(Refusal::BadName);
        }
        Ok(Name {
            bytes: padded(word),
            len: word.len() as u8,
        })
    }
}

impl Name {
    // The first of all names in the order.
    pub(crate) fn first() -> Name
        ensures { spelled result ≡ 0x21 ∷ [] }
    {
        Name {
            bytes: padded(b"!"),
            len: 1,
        }
    }

    // The bytes of the name.
    pub fn bytes(&self) -> &[u8]
        ensures value { result.now ≡ spelled self.now }
        ensures good { is_name result.now ≡ true }
    {
        &self.bytes[..self.len as usize]
    }

    // The order of names: by bytes, a shorter one before those that it begins.
    pub fn compare(&self, other: &Name) -> Ordering
        ensures order { ByBytes (spelled self.now) (spelled other.now) result }
        ensures ranks { Compares (rank (spelled self.now)) (rank (spelled other.now)) result }
        ensures law { OrderLaw }
    {
        compare_bytes(self, other)
    }
}

// The derived order, which has no clauses of its own: by the bytes, with the zeros behind them.
fn compare_bytes(a: &Name, b: &Name) -> Ordering
    ensures { result ≡ slice_cmp nat_cmp a.now.bytes b.now.bytes }
{
    a.cmp(b)
}

// Whether the word is a name.
fn is_name(word: &[u8]) -> bool
    ensures { result ≡ is_name word.now }
{
    (1..=16).contains(&word.len()) && all_visible(word)
}

// Whether every byte of the word may stand in a name.
fn all_visible(word: &[u8]) -> bool
    ensures { result ≡ visibles word.now }
{
    word.iter().all(|byte| is_visible(*byte))
}

// Whether the byte may stand in a name.
fn is_visible(byte: u8) -> bool
    ensures { result ≡ visible byte }
{
    matches!(byte, 0x21..=0x7e)
}

// The word in front of zeros, 16 bytes in all.
fn padded(word: &[u8]) -> [u8; 16]
    requires { length word.now ≤ 16 }
    ensures { result ≡ word.now ++ replicate (16 - length word.now) 0 }
{
    let mut bytes = [0; 16];
    bytes[..word.len()].copy_from_slice(word);
    bytes
}
