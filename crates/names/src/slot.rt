ghost use Rattle.std.specs.Prelude.{◌≡◌, [], ◌∷◌, ◌==◌};
ghost use Rattle.names.specs.Names.{spelled};
ghost use Rattle.names.specs.Slots.{place};

use crate::name::Name;
use row::Record;
use std::cmp::Ordering;

// A record of the table: a name and its atom. The name alone orders records.
#[derive(Clone, Copy)]
#[derive_where(PartialEq, Eq, PartialOrd, Ord)]
pub struct NameSlot {
    pub(crate) name: Name,
    #[derive_where(skip(EqHashOrd))]
    pub(crate) atom: u8,
}

impl NameSlot {
    // A record that holds no atom, to make slots of. Its name, the first in the order, is of no account.
    pub fn blank() -> NameSlot
        ensures name { spelled result.name ≡ 0x21 ∷ [] }
        ensures atom { result.atom ≡ 0 }
    {
        NameSlot {
            name: Name::first(),
            atom: 0,
        }
    }

    // A record to look for a name by.
    pub(crate) fn sought(name: Name) -> NameSlot
        ensures { result.name ≡ name }
    {
        NameSlot { name, atom: 0 }
    }

    // Whether the record has the atom.
    pub(crate) fn has(&self, atom: u8) -> bool
        ensures { result ≡ (self.now.atom == atom) }
    {
        self.atom == atom
    }

    // The name of the record.
    pub(crate) fn name(&self) -> Name
        ensures { result ≡ self.now.name }
    {
        self.name
    }

    // The atom of the record.
    pub(crate) fn atom(&self) -> u8
        ensures { result ≡ self.now.atom }
    {
        self.atom
    }
}

// Records are in the order of their names.
impl Record for NameSlot {
    ghost key = { place };

    fn order(&self, other: &NameSlot) -> Ordering {
        self.name.compare(&other.name)
    }
}
