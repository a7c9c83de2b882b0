ghost use Rattle.std.specs.Prelude.{◌≡◌, Some};
ghost use Rattle.session.specs.Reports.{counted, none_made, said, end_of};
ghost use Rattle.session.specs.Texts.{said_text, ended_text};

use clause::refusal::Refusal;
use std::fmt;

// What a step did: it made an atom true, or it derived a clause.
#[derive(Clone, Copy, Debug, PartialEq, Eq)]
pub enum Step {
    Setting,
    Derivation,
}

// How a run ended.
#[derive(Clone, Copy, Debug, PartialEq, Eq)]
pub enum Outcome {
    Satisfiable,
    Unsatisfiable,
    Stopped(Refusal),
}

// How many steps of each kind were made.
#[derive(Clone, Copy, Debug, PartialEq, Eq)]
pub struct Tally {
    pub settings: u32,
    pub derivations: u32,
}

// What a run answers: how it ended, and the steps that it made.
#[derive(Clone, Copy, Debug, PartialEq, Eq)]
pub struct Report {
    pub outcome: Outcome,
    pub made: Tally,
}

impl Tally {
    pub fn none() -> Tally
        ensures { result ≡ none_made }
    {
        Tally {
            settings: 0,
            derivations: 0,
        }
    }

    // One step more.
    pub fn counted(self, step: Step) -> Tally
        ensures { result ≡ counted self step }
    {
        match step {
            Step::Setting => Tally {
                settings: self.settings.saturating_add(1),
                ..self
            },
            Step::Derivation => Tally {
                derivations: self.derivations.saturating_add(1),
                ..self
            },
        }
    }
}

impl fmt::Display for Outcome {
    ghost output = { λ o. Some (said_text (said o)) };

    fn fmt<W: fmt::Write>(&self, f: &mut fmt::Formatter<W>) -> fmt::Result {
        match self {
            Outcome::Satisfiable => write!(f, "satisfiable"),
            Outcome::Unsatisfiable => write!(f, "unsatisfiable"),
            Outcome::Stopped(refusal) => {
                let number = refusal.number();
                write!(f, "stopped {number}")
            }
        }
    }
}

impl fmt::Display for Report {
    ghost output = { λ r. Some (ended_text (end_of r)) };

    fn fmt<W: fmt::Write>(&self, f: &mut fmt::Formatter<W>) -> fmt::Result {
        let outcome = self.outcome;
        let settings = self.made.settings;
        let derivations = self.made.derivations;
        write!(
            f,
            "{outcome}, {settings} settings, {derivations} derivations"
        )
    }
}
