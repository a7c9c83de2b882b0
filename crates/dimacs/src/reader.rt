ghost use Rattle.std.specs.Prelude.{◌≤◌, length};

pub mod take;

// A word of a text, as the part of the text that it is, and the place of its first byte.
#[derive(Clone, Copy)]
pub struct Word<'a> {
    pub bytes: &'a [u8],
    pub place: usize,
}

// Hands out the words of a text from a place on. Kept the whole text and a place: a word is told with its place in the text.
// The clauses `same` say that the text stays: a fact of before and after, which no invariant of a type can say.
#[derive(Drop)]
pub struct Reader<'a> {
    text: &'a [u8],
    at: usize,
    ghost inside: { at ≤ length text.now },
}
