// The text of an answer, in fixed memory.
ghost use Rattle.std.specs.Prelude.{◌≡◌, ℕ, ◌+◌, ◌≤◌, List, [], ◌++◌, length, take, decimal};
ghost use Rattle.answer.specs.Printed.{field, literal_field, literals, mark_of};

use clause::truth::stands;
use std::marker::Model;

// How many bytes a text may have.
const MOST: usize = 512;

// The first `len` of the bytes. Kept an array with a length, in place of a `Vec`: the answer call has no heap. Each call asks for the room that it takes.
#[derive(Drop)]
pub(crate) struct Text {
    bytes: [u8; MOST],
    len: usize,
}

// Clauses see the bytes that are printed.
impl Model for Text {
    ghost Value = { List ℕ };

    ghost view = { λ t. take t.len t.bytes };

    ghost invariant = { λ t. t.len ≤ 512 };
}

impl Text {
    pub(crate) fn new() -> Text
        ensures { result ≡ [] }
    {
        Text {
            bytes: [0; MOST],
            len: 0,
        }
    }

    pub(crate) fn as_bytes(&self) -> &[u8]
        ensures value { result.now ≡ self.now }
        ensures short { length self.now ≤ 512 }
    {
        &self.bytes[..self.len]
    }

    pub(crate) fn put(&mut self, bytes: &[u8])
        requires { length self.old + length bytes.now ≤ 512 }
        ensures { self.new ≡ self.old ++ bytes.now }
    {
        let end = self.len + bytes.len();
        self.bytes[self.len..end].copy_from_slice(bytes);
        self.len = end;
    }

    // A number in decimal. Kept by hand: a formatter may fail, and an answer is printed whole.
    fn number(&mut self, n: u64)
        requires { length self.old + length (decimal n) ≤ 512 }
        ensures { self.new ≡ self.old ++ decimal n }
    {
        if n >= 10 {
            self.number(n / 10);
        }
        self.put(&[b'0' + (n % 10) as u8]);
    }

    // A blank and a number.
    pub(crate) fn field(&mut self, n: u64)
        requires { length self.old + 21 ≤ 512 }
        ensures value { self.new ≡ self.old ++ field n }
        ensures bound { length self.new ≤ length self.old + 21 }
    {
        self.put(b" ");
        self.number(n);
    }

    // A blank and the literal of an atom; its sign stands apart, since `number` writes digits alone.
    fn literal(&mut self, atom: u32, value: bool)
        requires { (length self.old + 4 ≤ 512) × (atom ≤ 64) }
        ensures value { self.new ≡ self.old ++ literal_field atom value }
        ensures bound { length self.new ≤ length self.old + 4 }
    {
        self.put(mark(value));
        self.number(u64::from(atom));
    }

    // The literals of atoms 1 to `atoms`, each positive where it stands in the valuation.
    pub(crate) fn literals(&mut self, atoms: u32, valuation: u64)
        requires { (length self.old + 256 ≤ 512) × (atoms ≤ 64) }
        ensures value { self.new ≡ self.old ++ literals atoms valuation }
        ensures bound { length self.new ≤ length self.old + 256 }
    {
        for atom in 1..atoms + 1 {
            self.literal(atom, stands(valuation, atom));
        }
    }
}

// What stands before the number of a literal.
fn mark(value: bool) -> &'static [u8]
    ensures is { result.now ≡ mark_of value }
    ensures bound { length result.now ≤ 2 }
{
    if value { b" " } else { b" -" }
}
