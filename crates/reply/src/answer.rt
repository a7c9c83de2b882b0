ghost use Rattle.std.specs.Prelude.{◌≡◌, Some};
ghost use Rattle.session.specs.Reports.{said};
ghost use Rattle.reply.specs.Replies.{reply_in, reply_of, spent_said, spent};
ghost use Rattle.reply.specs.Texts.{reply_text};

use crate::action::Action;
use crate::valuation::Valuation;
use clause::refusal::Refusal;
use session::report::{Outcome, Report};
use std::fmt;

// What a request answered that was not refused: an opening, the number of an entry, a run, a step with the end of its run, or a valuation.
#[derive(Clone, Copy, Debug, PartialEq, Eq)]
pub enum Answer {
    Opened,
    Entry(u16),
    Ran(Report),
    Stepped(Option<Action>, Outcome),
    Shown(Valuation),
}

fn used_up(outcome: Outcome) -> bool
    ensures { result ≡ spent_said (said outcome) }
{
    matches!(outcome, Outcome::Stopped(Refusal::BudgetUsedUp))
}

impl Answer {
    // Whether the answer is that of a run which its budget ended.
    pub fn is_spent(self) -> bool
        ensures { result ≡ spent (reply_in self) }
    {
        match self {
            Answer::Ran(report) => used_up(report.outcome),
            Answer::Stepped(_, outcome) => used_up(outcome),
            _ => false,
        }
    }
}

// Whether the answer, refused or not, is that of a run which its budget ended.
pub fn is_spent(answer: Result<Answer, Refusal>) -> bool
    ensures { result ≡ spent (reply_of answer) }
{
    answer.is_ok_and(|a| a.is_spent())
}

impl fmt::Display for Answer {
    ghost output = { λ a. Some (reply_text (reply_in a)) };

    fn fmt<W: fmt::Write>(&self, f: &mut fmt::Formatter<W>) -> fmt::Result {
        match self {
            Answer::Opened => write!(f, "opened"),
            Answer::Entry(number) => write!(f, "entry {number}"),
            Answer::Ran(report) => write!(f, "{report}"),
            Answer::Stepped(Some(action), outcome) => write!(f, "{action}; {outcome}"),
            Answer::Stepped(None, outcome) => write!(f, "{outcome}"),
            Answer::Shown(valuation) => write!(f, "{valuation}"),
        }
    }
}
