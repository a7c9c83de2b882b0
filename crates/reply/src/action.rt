ghost use Rattle.std.specs.Prelude.{◌≡◌, ℕ, ◌<◌, Some, MatchOption};
ghost use Rattle.reply.specs.Actions.{gained_to, set_in, derived_by, action_of, NamesSettings};
ghost use Rattle.reply.specs.Texts.{action_text};

use clause::truth::stands;
use session::report::Tally;
use session::search::{Phase, Search};
use std::fmt;
use store::entry::Entry;

// What a step did: it set an atom by an entry, it derived the entry of a number, or it derived the empty clause from two entries.
#[derive(Clone, Copy, Debug, PartialEq, Eq)]
pub enum Action {
    Set(u32, u16),
    Derive(u16, Entry),
    Refute(u16, u16),
}

// The highest atom that stands in the second word and not in the first. Kept a loop: with `find` the proof did not close.
fn gained(before: u64, after: u64) -> Option<u32>
    ensures { MatchOption result (gained_to 64 before after ≡ 0) (λ p. p ≡ gained_to 64 before after) }
{
    for atom in (1..65).rev() {
        if stands(after, atom) && !stands(before, atom) {
            return Some(atom);
        }
    }
    None
}

// The atom that was set, with its reason.
fn setting(after: &Search, atom: u32) -> Option<Action>
    ensures { result ≡ set_in after.now atom }
{
    after.reason(atom).map(|k| Action::Set(atom, k))
}

// The kept pair of a refuted session, or else the entry that was derived last.
fn derivation(phase: Phase, size: u16, last: Option<Entry>) -> Option<Action>
    ensures { result ≡ derived_by phase size last }
{
    match (phase, last) {
        (Phase::Refuted(first, second), _) => Some(Action::Refute(first, second)),
        (_, Some(entry)) => Some(Action::Derive(size, entry)),
        _ => None,
    }
}

// The step that a session made between two states, if it made one; its last entry is then `last`, of number `size`.
pub fn action_between(
    before: &Search,
    after: &Search,
    made: Tally,
    size: u16,
    last: Option<Entry>,
) -> Option<Action>
    ensures value { result ≡ action_of before.now after.now made size last }
    ensures settings { NamesSettings before.now after.now made result }
{
    if made.settings > 0 {
        let atom = gained(before.valuation, after.valuation)?;
        return setting(after, atom);
    }
    if made.derivations > 0 {
        return derivation(after.phase, size, last);
    }
    None
}

impl fmt::Display for Action {
    ghost output = { λ a. Some (action_text a) };

    fn fmt<W: fmt::Write>(&self, f: &mut fmt::Formatter<W>) -> fmt::Result {
        match self {
            Action::Set(atom, reason) => write!(f, "set {atom} by {reason}"),
            Action::Refute(first, second) => write!(f, "derive empty from {first} and {second}"),
            Action::Derive(number, entry) => {
                let first = entry.first;
                let second = entry.second;
                let clause = entry.clause;
                write!(f, "derive {number} from {first} and {second}: {clause}")
            }
        }
    }
}
