ghost use Rattle.std.specs.Prelude.{◌≡◌, ℕ, ◌-◌, ◌<◌, ◌≤◌, ◌++◌, length, take, replicate, None, MatchResult};
ghost use Rattle.clause.specs.Words.{upto};
ghost use Rattle.session.specs.Searching.{fresh, setting, cleared, derived, refuted, satisfied, admitted, reason_in, reason_of, withdrawn, WasOpened};
ghost use Rattle.session.specs.declared.search.Phase.TheVariants.{Unopened};

use crate::report::{Step, Tally};
use clause::refusal::Refusal;
use clause::words::Clause;

// How far a session has come: refused at its opening, without a verdict, or with one. A refuted session keeps the two entries that gave the empty clause
// (two plain numbers, here and where they are passed: no fact ties them, so a struct would only name them again).
#[derive(Clone, Copy)]
pub enum Phase {
    Unopened(Refusal),
    Undecided,
    Satisfied,
    Refuted(u16, u16),
}

// What a session keeps beside its store. Atom p is true if it stands in the valuation; its reason is at p - 1.
#[derive(Clone, Copy)]
pub struct Search {
    pub atoms: u32,
    pub phase: Phase,
    pub valuation: u64,
    pub reasons: [Option<u16>; 64],
    pub made: Tally,
    pub given: u32,
}

impl Search {
    // Nothing true, nothing counted.
    pub fn new(atoms: u32, phase: Phase) -> Search
        ensures { result ≡ fresh atoms phase }
    {
        Search {
            atoms,
            phase,
            valuation: 0,
            reasons: [None; 64],
            made: Tally::none(),
            given: 0,
        }
    }

    // Refused as the opening was.
    pub(crate) fn check_opened(&self) -> Result<(), Refusal>
        ensures { MatchResult result (λ _. WasOpened self.now.phase) (λ e. self.now.phase ≡ Unopened e) }
    {
        match self.phase {
            Phase::Unopened(e) => Err(e),
            _ => Ok(()),
        }
    }

    // The reason of the atom, nothing where it has none.
    pub fn reason(&self, atom: u32) -> Option<u16>
        ensures { result ≡ reason_of self.now atom }
    {
        reason_in(&self.reasons, atom)
    }

    // The atom becomes true, with the entry of that number as its reason.
    pub(crate) fn set(&mut self, atom: u32, number: u16)
        requires { (0 < atom) × (atom ≤ 64) }
        ensures { self.new ≡ setting self.old atom number }
    {
        self.valuation |= 1 << (atom - 1);
        self.reasons[atom as usize - 1] = Some(number);
        self.made = self.made.counted(Step::Setting);
    }

    // All atoms above `highest` become false and lose their reasons.
    pub(crate) fn clear_above(&mut self, highest: u32)
        requires { highest ≤ 64 }
        ensures { self.new ≡ cleared self.old highest }
    {
        self.valuation = low_atoms(self.valuation, highest);
        forget(&mut self.reasons, highest as usize);
    }

    // A derived clause with that highest atom was put.
    pub(crate) fn derive(&mut self, highest: u32)
        requires { highest ≤ 64 }
        ensures { self.new ≡ derived self.old highest }
    {
        self.clear_above(highest);
        self.made = self.made.counted(Step::Derivation);
    }

    // The empty clause was derived from these two entries.
    pub(crate) fn refute(&mut self, first: u16, second: u16)
        ensures { self.new ≡ refuted self.old first second }
    {
        self.phase = Phase::Refuted(first, second);
        self.made = self.made.counted(Step::Derivation);
    }

    // No held clause is false.
    pub(crate) fn satisfy(&mut self)
        ensures { self.new ≡ satisfied self.old }
    {
        self.phase = Phase::Satisfied;
    }

    // A new clause was given: a satisfiable verdict is withdrawn, and if the clause is false, the atoms above its highest become false.
    pub(crate) fn admit(&mut self, clause: &Clause)
        ensures { self.new ≡ admitted self.old clause.now }
    {
        self.phase = withdraw(self.phase);
        self.given = self.given.saturating_add(1);
        if !clause.is_true(self.valuation) {
            self.clear_above(clause.highest());
        }
    }
}

fn reason_in(reasons: &[Option<u16>; 64], atom: u32) -> Option<u16>
    ensures { result ≡ reason_in reasons.now atom }
{
    let index = (atom as usize).checked_sub(1)?;
    *reasons.get(index)?
}

fn withdraw(phase: Phase) -> Phase
    ensures { result ≡ withdrawn phase }
{
    match phase {
        Phase::Satisfied => Phase::Undecided,
        other => other,
    }
}

// The atoms of the word from 1 to `highest`.
fn low_atoms(word: u64, highest: u32) -> u64
    requires { highest ≤ 64 }
    ensures { result ≡ upto word highest }
{
    if highest == 0 {
        return 0;
    }
    word & (u64::MAX >> (64 - highest))
}

fn forget(reasons: &mut [Option<u16>; 64], highest: usize)
    requires { highest ≤ 64 }
    ensures { reasons.new ≡ take highest reasons.old ++ replicate (64 - highest) None }
{
    reasons[highest..].fill(None);
}
