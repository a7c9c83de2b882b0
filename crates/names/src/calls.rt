ghost use Rattle.std.specs.Prelude.{◌≡◌, ◌+◌, min, [], length, drop, MatchOption, MatchResult};
ghost use Rattle.clause.specs.Refusals.{answer};
ghost use Rattle.names.specs.Tables.{name_at, atom_of, name_answer, word_answer, after_name, after_word, Kept};
ghost use Rattle.names.specs.Laws.{Inverse, Given};
ghost use Rattle.names.specs.Names.{spelled};
ghost use Rattle.names.specs.Slots.{Absent, HasAtom};
ghost use Rattle.names.specs.Calls.{lent, held, spelled_in};

use crate::name::Name;
use crate::slot::NameSlot;
use crate::table::NameTable;
use clause::refusal::Refusal;
use row::{Added, Row};

impl<'a> NameTable<'a> {
    // An empty table in the lent slots: a place for each of them, and for no more than 64.
    pub fn new(slots: &'a mut [NameSlot]) -> NameTable<'a>
        ensures table { held result ≡ record { names = []; places = min (length slots.old) 64 } }
        ensures kept { Kept (held result) }
        ensures slots { lent result ≡ slots.old }
        ensures lender { result.row.slots.ghost_name ≡ slots.entry.ghost_name }
    {
        NameTable { row: row_in(slots) }
    }

    // How many names have an atom.
    pub fn size(&self) -> u8
        ensures { result ≡ length (held self.now).names }
    {
        self.count()
    }

    // How many names there is room for.
    pub fn places(&self) -> u8
        ensures { result ≡ (held self.now).places }
    {
        self.row.places() as u8
    }

    // How many records are in use.
    fn count(&self) -> u8
        ensures { result ≡ self.now.row.size }
    {
        self.row.size() as u8
    }

    // The atom of the next new name.
    fn next_atom(&self) -> u8
        ensures { result ≡ self.now.row.size + 1 }
    {
        self.count() + 1
    }

    // The atom of the word: the one that it has, or the next one for a new name that finds a place.
    // Beside that: a refused word leaves the lent memory as it was, what lies past the places stays, and the same memory stays lent.
    pub fn atom_of(&mut self, word: &[u8]) -> Result<u8, Refusal>
        ensures answers { answer result ≡ word_answer (held self.old) word.now }
        ensures after { held self.new ≡ after_word (held self.old) word.now }
        ensures given { Given (held self.new) word.now (answer result) }
        ensures kept { Kept (held self.new) }
        ensures refused { MatchResult result (λ _. Unit) (λ _. lent self.new ≡ lent self.old) }
        ensures beyond { drop (held self.old).places (lent self.new) ≡ drop (held self.old).places (lent self.old) }
        ensures lender { self.new.row.slots.ghost_name ≡ self.old.row.slots.ghost_name }
    {
        let name = Name::try_from(word)?;
        self.give(name)
    }

    // The same of a word that is a name.
    fn give(&mut self, name: Name) -> Result<u8, Refusal>
        ensures answers { answer result ≡ name_answer (held self.old) (atom_of (held self.old) (spelled name)) }
        ensures after { held self.new ≡ after_name (held self.old) (spelled name) (atom_of (held self.old) (spelled name)) }
        ensures refused { MatchResult result (λ _. Unit) (λ _. lent self.new ≡ lent self.old) }
        ensures beyond { drop (held self.old).places (lent self.new) ≡ drop (held self.old).places (lent self.old) }
        ensures lender { self.new.row.slots.ghost_name ≡ self.old.row.slots.ghost_name }
    {
        let atom = self.next_atom();
        match self.row.add(NameSlot { name, atom }) {
            Added::Held(i) => Ok(self.row.records()[i].atom()),
            Added::New(_) => Ok(atom),
            Added::Full => Err(Refusal::NoNamePlace),
        }
    }

    // The atom of the word, nothing where it has none.
    pub fn find(&self, word: &[u8]) -> Option<u8>
        ensures value { result ≡ atom_of (held self.now) word.now }
        ensures inverse { Inverse (held self.now) word.now result }
    {
        let name = Name::try_from(word).ok()?;
        let i = self.row.find(&NameSlot::sought(name))?;
        Some(self.row.records()[i].atom())
    }

    // The name of the atom, nothing where no name has it.
    pub fn name_of(&self, atom: u8) -> Option<Name>
        ensures { spelled_in result ≡ name_at (held self.now) atom }
    {
        let records = self.row.records();
        let i = seat_of(records, atom)?;
        Some(records[i].name())
    }
}

// An empty row of names that uses at most 64 of the lent slots.
fn row_in<'a>(slots: &'a mut [NameSlot]) -> Row<'a, NameSlot>
    ensures size { result.size ≡ 0 }
    ensures places { result.places ≡ min (length slots.old) 64 }
    ensures same { result.slots.now ≡ slots.old }
    ensures lender { result.slots.ghost_name ≡ slots.entry.ghost_name }
{
    Row::new(slots, 64)
}

// The position of the first record that has the atom.
fn seat_of(records: &[NameSlot], atom: u8) -> Option<usize>
    ensures { MatchOption result (Absent records.now (length records.now) atom) (λ i. HasAtom records.now i atom) }
{
    records.iter().position(|record| record.has(atom))
}
