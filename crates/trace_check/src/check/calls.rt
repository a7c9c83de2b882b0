ghost use Rattle.std.specs.Prelude.{◌≡◌, ℕ, ◌+◌, ◌<◌, ◌≤◌, true, is_ok, Decides};
ghost use Rattle.clause.specs.Refusals.{answer, told};
ghost use Rattle.rule.specs.Rule.{Right};
ghost use Rattle.trace_check.specs.Checks.{Opened, Took, Means, waiting, fault_told, judgement};
ghost use Rattle.trace_check.specs.Meaning.{Refutes};

use super::{ClosedCheck, OpenCheck};
use crate::fault::Fault;
use crate::trailer::right_trailer;
use clause::refusal::Refusal;
use rule::right::Claim;

impl<'a> OpenCheck<'a> {
    // Begins a check of the bytes with no line taken. A wrong trailer is its first fault.
    pub fn open(trace: &'a [u8]) -> OpenCheck<'a>
        ensures bytes { result.claim.trace.now ≡ trace.now }
        ensures opened { Opened trace.now result.claim.atoms result.claim.last result.taken result.fault }
    {
        let Some(trailer) = right_trailer(trace) else {
            return OpenCheck {
                claim: Claim {
                    trace,
                    atoms: 0,
                    last: 0,
                },
                taken: 0,
                fault: Some(Fault::Trailer),
            };
        };
        OpenCheck {
            claim: Claim {
                trace,
                atoms: trailer.atoms,
                last: trailer.last,
            },
            taken: 0,
            fault: None,
        }
    }

    // Whether there is a line to take: no fault, and not the last line taken.
    pub fn waits(&self) -> bool
        ensures { result ≡ waiting self.now.claim.last self.now.taken self.now.fault }
    {
        self.fault.is_none() && self.taken < self.claim.last
    }

    // Whether the line after those taken is right.
    fn next_is_right(&self) -> bool
        requires { self.now.taken < self.now.claim.last }
        ensures { Decides result (Right self.now.claim.trace.now self.now.claim.atoms self.now.claim.last (self.now.taken + 1)) }
    {
        // Of a number in a struct only a read says that it fits its type.
        let _last = self.claim.last;
        self.claim.is_right(self.taken + 1)
    }

    // What a check with this fault is refused with.
    fn refusal(&self, fault: Fault) -> Refusal
        ensures { told result ≡ fault_told self.now.taken fault }
    {
        match fault {
            Fault::Trailer => Refusal::WrongTrailer,
            Fault::Line => Refusal::WrongLine(self.taken as usize + 1),
        }
    }

    // Takes one line more, or none after a fault or the last line. Answers the count of lines taken, or the first fault.
    pub fn take(&mut self) -> Result<u32, Refusal>
        ensures bytes { self.new.claim.trace.now ≡ self.old.claim.trace.now }
        ensures atoms { self.new.claim.atoms ≡ self.old.claim.atoms }
        ensures last { self.new.claim.last ≡ self.old.claim.last }
        ensures took { Took self.old.claim.trace.now self.old.claim.atoms self.old.claim.last self.old.taken self.old.fault self.new.taken self.new.fault (answer result) }
    {
        if let Some(fault) = self.fault {
            return Err(self.refusal(fault));
        }
        if self.taken >= self.claim.last {
            return Ok(self.taken);
        }
        if self.next_is_right() {
            self.taken += 1;
            Ok(self.taken)
        } else {
            self.fault = Some(Fault::Line);
            Err(self.refusal(Fault::Line))
        }
    }

    // Takes no more lines.
    pub fn close(self) -> ClosedCheck<'a>
        ensures bytes { result.check.claim.trace.now ≡ self.entry.claim.trace.now }
        ensures atoms { result.check.claim.atoms ≡ self.entry.claim.atoms }
        ensures last { result.check.claim.last ≡ self.entry.claim.last }
        ensures taken { result.check.taken ≡ self.entry.taken }
        ensures fault { result.check.fault ≡ self.entry.fault }
    {
        ClosedCheck { check: self }
    }

    // Sound, or the first fault, or closed too early.
    fn judgement(&self) -> Result<(), Refusal>
        ensures { answer result ≡ judgement self.now.claim.last self.now.taken self.now.fault }
    {
        match self.fault {
            Some(fault) => Err(self.refusal(fault)),
            None if self.taken < self.claim.last => Err(Refusal::ClosedEarly(self.taken as usize)),
            None => Ok(()),
        }
    }
}

impl<'a> ClosedCheck<'a> {
    // Sound, or the first fault, or closed too early.
    pub fn judge(&self) -> Result<(), Refusal>
        ensures value { answer result ≡ judgement self.now.check.claim.last self.now.check.taken self.now.check.fault }
        ensures means { Means self.now.check.claim.trace.now self.now.check.taken (answer result) }
        ensures refutes { is_ok result ≡ true → Refutes self.now.check.claim.trace.now }
    {
        self.check.judgement()
    }
}
