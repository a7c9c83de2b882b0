// The heading of a text: the words `p` and `cnf`, the number of atoms and the number of clauses.
ghost use Rattle.std.specs.Prelude.{◌≡◌};
ghost use Rattle.dimacs.specs.Reading.{content, text_end, left};
ghost use Rattle.dimacs.specs.Heading.{leaving, expecting, counting, beyond, headed};

use crate::numbers::number;
use crate::reader::Reader;
use clause::literals::is_outside;
use clause::refusal::Refusal;

// How many atoms and clauses a text announces.
#[derive(Clone, Copy, Debug, PartialEq, Eq)]
pub struct Heading {
    pub atoms: u32,
    pub clauses: u32,
}

// A number of the heading: of atoms, with the most that are allowed, or of clauses.
// Kept an enum, in place of a test that is passed in: a heading has just these two kinds of numbers, and a test would say no more than their names.
#[derive(Clone, Copy, Debug, PartialEq, Eq)]
pub enum Count {
    Atoms(u32),
    Clauses,
}

impl Count {
    fn is_beyond(self, k: u32) -> bool
        ensures { result ≡ beyond self k }
    {
        match self {
            Count::Atoms(n) => is_outside(k, n),
            Count::Clauses => k > 16_384,
        }
    }
}

impl<'a> Reader<'a> {
    // Takes the given word.
    fn expect(&mut self, text: &[u8]) -> Result<(), Refusal>
        ensures same { content self.new ≡ content self.old }
        ensures value { leaving result (left self.new) ≡ expecting text.now (text_end self.old) (left self.old) }
    {
        let end = self.end();
        let word = self.next_word().ok_or(Refusal::MalformedWord(end))?;
        if word.bytes != text {
            return Err(Refusal::MalformedWord(word.place));
        }
        Ok(())
    }

    // Takes a number of the heading.
    fn count(&mut self, count: Count) -> Result<u32, Refusal>
        ensures same { content self.new ≡ content self.old }
        ensures value { leaving result (left self.new) ≡ counting count (text_end self.old) (left self.old) }
    {
        let end = self.end();
        let word = self.next_word().ok_or(Refusal::MalformedWord(end))?;
        let k = number(word.bytes).ok_or(Refusal::MalformedWord(word.place))?;
        if count.is_beyond(k) {
            return Err(Refusal::OutOfRange(word.place));
        }
        Ok(k)
    }

    // Takes the heading, of at most n atoms.
    pub(crate) fn heading(&mut self, n: u32) -> Result<Heading, Refusal>
        ensures same { content self.new ≡ content self.old }
        ensures value { leaving result (left self.new) ≡ headed n (text_end self.old) (left self.old) }
    {
        self.expect(b"p")?;
        self.expect(b"cnf")?;
        let atoms = self.count(Count::Atoms(n))?;
        let clauses = self.count(Count::Clauses)?;
        Ok(Heading { atoms, clauses })
    }
}
