ghost use Rattle.std.specs.Prelude.{◌≡◌, Some};
ghost use Rattle.clause.specs.Refusals.{told, told_text};

use std::error::Error;
use std::fmt;

// Why a call was refused, a run stopped or a trace is no proof, named by what happened. A place is a byte of a text or an index of a literal, from 0,
// or of a trace the first wrong line or the count of lines taken.
#[derive(Clone, Copy, Debug, PartialEq, Eq)]
pub enum Refusal {
    AtomCount,
    NoPlaces,
    StoreHoldsEntry,
    TooLarge,
    MalformedWord(usize),
    OutOfRange(usize),
    BothSigns(usize),
    NoLiteral(usize),
    ClauseCount(usize),
    NoPlaceFree,
    NoVerdict,
    TooShort,
    DerivedBothSigns,
    BudgetUsedUp,
    WrongTrailer,
    WrongLine(usize),
    ClosedEarly(usize),
    BadName,
    NoNamePlace,
}

impl Refusal {
    pub fn number(&self) -> u8
        ensures { result ≡ (told self.now).number }
    {
        match self {
            Refusal::AtomCount => 1,
            Refusal::NoPlaces => 2,
            Refusal::StoreHoldsEntry => 3,
            Refusal::TooLarge => 4,
            Refusal::MalformedWord(_) => 5,
            Refusal::OutOfRange(_) => 6,
            Refusal::BothSigns(_) => 7,
            Refusal::NoLiteral(_) => 8,
            Refusal::ClauseCount(_) => 9,
            Refusal::NoPlaceFree => 10,
            Refusal::NoVerdict => 11,
            Refusal::TooShort => 12,
            Refusal::DerivedBothSigns => 13,
            Refusal::BudgetUsedUp => 14,
            Refusal::WrongTrailer => 15,
            Refusal::WrongLine(_) => 16,
            Refusal::ClosedEarly(_) => 17,
            Refusal::BadName => 19,
            Refusal::NoNamePlace => 20,
        }
    }

    pub fn place(&self) -> usize
        ensures { result ≡ (told self.now).place }
    {
        match self {
            Refusal::MalformedWord(place)
            | Refusal::OutOfRange(place)
            | Refusal::BothSigns(place)
            | Refusal::NoLiteral(place)
            | Refusal::ClauseCount(place)
            | Refusal::WrongLine(place)
            | Refusal::ClosedEarly(place) => *place,
            _ => 0,
        }
    }

    // 1 words, 2 clauses, 3 the rest: a number, as the number itself, since the rules and the printed texts give it as one.
    pub fn layer(&self) -> u8
        ensures { result ≡ (told self.now).layer }
    {
        match self {
            Refusal::MalformedWord(_) => 1,
            Refusal::OutOfRange(_)
            | Refusal::BothSigns(_)
            | Refusal::NoLiteral(_)
            | Refusal::ClauseCount(_) => 2,
            _ => 3,
        }
    }
}

// The number, the place and the layer.
impl fmt::Display for Refusal {
    ghost output = { λ r. Some (told_text (told r)) };

    fn fmt<W: fmt::Write>(&self, f: &mut fmt::Formatter<W>) -> fmt::Result {
        let number = self.number();
        let place = self.place();
        let layer = self.layer();
        write!(f, "refused {number} at {place} in layer {layer}")
    }
}

impl Error for Refusal {}
