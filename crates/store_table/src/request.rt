ghost use Rattle.std.specs.Prelude.{◌≡◌};
ghost use Rattle.clause.specs.Refusals.{answer};
ghost use Rattle.store_table.specs.Answers.{words_of, clause_in, number_answer, entry_answer, puts_answer};

use clause::refusal::Refusal;
use clause::words::Clause;
use store::entry::Entry;

// A clause as a table writes it: the words of its positive and of its negative atoms, atom a worth 2^(a - 1).
#[derive(Clone, Copy, PartialEq, Eq, Debug)]
pub struct Words {
    pub positive: u64,
    pub negative: u64,
}

impl Words {
    // The clause of the words, or nothing where they share an atom.
    pub fn clause(&self) -> Option<Clause>
        ensures { result ≡ clause_in self.now }
    {
        Clause::of_words(self.positive, self.negative)
    }
}

impl From<Clause> for Words {
    ghost from_gives = { λ c w. w ≡ words_of c };

    fn from(clause: Clause) -> Words {
        Words {
            positive: clause.positive(),
            negative: clause.negative(),
        }
    }
}

// A request to a clause store.
#[derive(Clone, Copy, Debug)]
pub enum Request {
    Size,
    Places,
    Entry(u16),
    Find(Words),
    // A given clause.
    Put(Words),
    // A clause with the numbers of its antecedents.
    Derive(Words, u16, u16),
    // The word of the true atoms.
    LeastFalse(u64),
}

// What a store answers.
#[derive(Clone, Copy, PartialEq, Eq, Debug)]
pub enum Answer {
    Count(u16),
    Number(u16),
    Nothing,
    // The refusal's number, not the refusal: the tables write it as the rules do, and their values stay.
    Refused(u8),
    // A clause and the numbers of its antecedents.
    Holds(Words, u16, u16),
    // The table's words share an atom: not asked.
    NoClause,
}

impl From<Option<u16>> for Answer {
    ghost from_gives = { λ n a. a ≡ number_answer n };

    fn from(number: Option<u16>) -> Answer {
        number.map_or(Answer::Nothing, Answer::Number)
    }
}

impl From<Option<Entry>> for Answer {
    ghost from_gives = { λ e a. a ≡ entry_answer e };

    fn from(entry: Option<Entry>) -> Answer {
        entry.map_or(Answer::Nothing, |held| {
            Answer::Holds(held.clause.into(), held.first, held.second)
        })
    }
}

impl From<Result<u16, Refusal>> for Answer {
    ghost from_gives = { λ r a. a ≡ puts_answer (answer r) };

    fn from(put: Result<u16, Refusal>) -> Answer {
        put.map_or_else(|refusal| Answer::Refused(refusal.number()), Answer::Number)
    }
}

// A request, and the answer that the rules give it.
#[derive(Clone, Copy)]
pub struct Row(pub Request, pub Answer);
