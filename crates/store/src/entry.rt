ghost use Rattle.std.specs.Prelude.{◌≡◌};

use clause::words::Clause;

// A clause and the numbers of its two antecedents, both 0 where it was given: numbers, not an option of two, since the rules write 0 and 0 there.
#[derive(Clone, Copy, Debug, PartialEq, Eq)]
pub struct Entry {
    pub clause: Clause,
    pub first: u16,
    pub second: u16,
}

impl Entry {
    pub fn given(clause: Clause) -> Entry
        ensures { result ≡ record { clause = clause; first = 0; second = 0 } }
    {
        Entry {
            clause,
            first: 0,
            second: 0,
        }
    }

    // The clause that came from entries `first` and `second`.
    pub fn derived(clause: Clause, first: u16, second: u16) -> Entry
        ensures { result ≡ record { clause = clause; first = first; second = second } }
    {
        Entry {
            clause,
            first,
            second,
        }
    }
}
