ghost use Rattle.std.specs.Prelude.{◌≤◌};
ghost use Rattle.names.specs.Slots.{Counted, Seated, Single};

use crate::slot::NameSlot;
use row::Row;

// Names in order in the lent slots, each with its atom: the count of names when it came, from 1.
#[derive(Drop)]
pub struct NameTable<'a> {
    pub(crate) row: Row<'a, NameSlot>,
    ghost few: { row.places ≤ 64 },
    ghost counted: { Counted row.slots.now row.size },
    ghost seated: { Seated row.slots.now row.size },
    ghost single: { Single row.slots.now row.size },
}
