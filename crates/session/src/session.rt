ghost use Rattle.std.specs.Prelude.{◌≡◌, ℕ, ◌-◌, ◌≤◌, true, not, length, Ok, ◌==◌, nat_lt};
ghost use Rattle.dimacs.specs.ToCome.{to_come};
ghost use Rattle.dimacs.specs.Walk.{Parsed, parse};
ghost use Rattle.clause.specs.Refusals.{answer};
ghost use Rattle.store.specs.Held.{Held, entry_at, least_false};
ghost use Rattle.session.specs.Reports.{none_made, run_answer};
ghost use Rattle.session.specs.Steps.{after, step, step_at, runs};
ghost use Rattle.clause.specs.Clauses.{lits, top};
ghost use Rattle.session.specs.Calls.{due, opening, opened, add, add_clause, load, load_all, loads, run, shown};

pub mod questions;

use crate::report::{Outcome, Report, Step, Tally};
use crate::search::{Phase, Search};
use clause::literals::is_outside;
use clause::refusal::Refusal;
use clause::words::Clause;
use dimacs::check::check;
use dimacs::clauses::Clauses;
use store::entry::Entry;
use store::store::ClauseStore;

// A session over a lent store. While it lasts, its calls alone alter the store. The clauses `named` say that the same store stays lent: a fact of before and
// after, which no invariant of a type can say.
#[derive(Drop)]
pub struct Session<'a, S: ClauseStore> {
    store: &'a mut S,
    search: Search,
}

// The first refusal that is due at an opening, if any is.
pub fn due_at_opening<S: ClauseStore>(atoms: u32, store: &S) -> Option<Refusal>
    ensures { result ≡ due atoms (S.held store.now) }
{
    if is_outside(atoms, 64) {
        return Some(Refusal::AtomCount);
    }
    if store.places() == 0 {
        return Some(Refusal::NoPlaces);
    }
    if store.size() == 0 {
        None
    } else {
        Some(Refusal::StoreHoldsEntry)
    }
}

fn phase_of(refusal: Option<Refusal>) -> Phase
    ensures { result ≡ opening refusal }
{
    refusal.map_or(Phase::Undecided, |e| Phase::Unopened(e))
}

impl<'a, S: ClauseStore> Session<'a, S> {
    // A session with atoms 1 to `atoms`. Opened in spite of a refusal that is due, it answers that at every call.
    pub fn open(atoms: u32, store: &'a mut S) -> Session<'a, S>
        ensures store { result.store.now ≡ store.old }
        ensures named { result.store.ghost_name ≡ store.entry.ghost_name }
        ensures search { result.search ≡ opened atoms (S.held store.old) }
    {
        let phase = phase_of(due_at_opening(atoms, store));
        Session {
            store,
            search: Search::new(atoms, phase),
        }
    }

    // The clause of the literals, accepted: its number.
    pub fn add(&mut self, literals: &[i32]) -> Result<u16, Refusal>
        ensures named { self.new.store.ghost_name ≡ self.old.store.ghost_name }
        ensures made { after (S.held self.new.store.now) self.new.search (answer result) ≡ add (S.held self.old.store.now) self.old.search literals.now }
    {
        self.search.check_opened()?;
        let clause = Clause::of_literals(literals, self.search.atoms)?;
        self.accept(&clause)
    }

    fn accept(&mut self, clause: &Clause) -> Result<u16, Refusal>
        ensures named { self.new.store.ghost_name ≡ self.old.store.ghost_name }
        ensures made { after (S.held self.new.store.now) self.new.search (answer result) ≡ add_clause (S.held self.old.store.now) self.old.search clause.now (top (lits clause.now) == 0) }
    {
        if clause.is_empty() {
            return Err(Refusal::NoLiteral(0));
        }
        if let Some(k) = self.store.find(clause) {
            return Ok(k);
        }
        let k = self.store.put(Entry::given(*clause))?;
        self.search.admit(clause);
        Ok(k)
    }

    // The clauses of the text, accepted in order, or none of them: how many there are.
    pub fn load(&mut self, text: &[u8]) -> Result<u16, Refusal>
        ensures named { self.new.store.ghost_name ≡ self.old.store.ghost_name }
        ensures made { after (S.held self.new.store.now) self.new.search (answer result) ≡ load (S.held self.old.store.now) self.old.search text.now }
    {
        self.search.check_opened()?;
        let heading = check(text, self.search.atoms)?;
        self.load_checked(text, heading.clauses)
    }

    // The same of a text that was found to have `count` clauses and no fault.
    fn load_checked(&mut self, text: &[u8], count: u32) -> Result<u16, Refusal>
        ensures named { self.new.store.ghost_name ≡ self.old.store.ghost_name }
        ensures made { (p : Parsed) → parse self.old.search.atoms text.now ≡ Ok p → length p.clauses ≡ count → after (S.held self.new.store.now) self.new.search (answer result) ≡ load_all (S.held self.old.store.now) self.old.search p.clauses (nat_lt ((S.held self.old.store.now).places - length (S.held self.old.store.now).entries) (length p.clauses)) }
    {
        if self.has_free(count) {
            self.accept_all(Clauses::new(text, self.search.atoms));
            return Ok(count as u16);
        }
        Err(Refusal::NoPlaceFree)
    }

    // Whether so many places are free.
    fn has_free(&self, count: u32) -> bool
        ensures value { result ≡ not (nat_lt ((S.held self.now.store.now).places - length (S.held self.now.store.now).entries) count) }
        ensures few { result ≡ true → count ≤ 16384 }
    {
        count <= u32::from(self.store.places() - self.store.size())
    }

    fn accept_all(&mut self, clauses: Clauses<'_>)
        ensures named { self.new.store.ghost_name ≡ self.old.store.ghost_name }
        ensures made { (m : ℕ) → after (S.held self.new.store.now) self.new.search (Ok m) ≡ loads m (S.held self.old.store.now) self.old.search (to_come clauses.entry) }
    {
        for clause in clauses {
            let _ = self.accept(&clause);
        }
    }

    // At most `budget` steps, until a verdict stands or a step is stopped.
    pub fn run(&mut self, budget: u32) -> Result<Report, Refusal>
        ensures named { self.new.store.ghost_name ≡ self.old.store.ghost_name }
        ensures made { after (S.held self.new.store.now) self.new.search (run_answer result) ≡ run (S.held self.old.store.now) self.old.search budget }
    {
        self.search.check_opened()?;
        if budget > 2_000_000 {
            return Err(Refusal::TooLarge);
        }
        self.steps(budget)
    }

    // Kept one match over phase, clause and budget left: the rules of the project name this form for a run (docs/DECISIONS.md, "Forms").
    fn steps(&mut self, budget: u32) -> Result<Report, Refusal>
        ensures named { self.new.store.ghost_name ≡ self.old.store.ghost_name }
        ensures made { after (S.held self.new.store.now) self.new.search (run_answer result) ≡ runs budget (S.held self.old.store.now) self.old.search none_made }
    {
        let mut left = budget;
        let mut made = Tally::none();
        loop {
            let found = self.first_false();
            match (self.search.phase, found, left) {
                (Phase::Unopened(e), _, _) => return Err(e),
                (Phase::Refuted(_, _), _, _) => {
                    return Ok(Report {
                        outcome: Outcome::Unsatisfiable,
                        made,
                    });
                }
                (_, None, _) => {
                    self.search.satisfy();
                    return Ok(Report {
                        outcome: Outcome::Satisfiable,
                        made,
                    });
                }
                (_, Some(_), 0) => {
                    return Ok(Report {
                        outcome: Outcome::Stopped(Refusal::BudgetUsedUp),
                        made,
                    });
                }
                (_, Some(k), _) => match self.act(k) {
                    Ok(step) => made = made.counted(step),
                    Err(e) => return Ok(Report {
                        outcome: Outcome::Stopped(e),
                        made,
                    }),
                },
            }
            left -= 1;
        }
    }

    // The number of the first held clause in clause order that is false.
    fn first_false(&self) -> Option<u16>
        ensures { result ≡ least_false (S.held self.now.store.now) self.now.search.valuation }
    {
        self.store.least_false(self.search.valuation)
    }

    // The step that acts on entry k.
    fn act(&mut self, k: u16) -> Result<Step, Refusal>
        ensures named { self.new.store.ghost_name ≡ self.old.store.ghost_name }
        ensures made { after (S.held self.new.store.now) self.new.search (answer result) ≡ step_at (S.held self.old.store.now) self.old.search k (entry_at (S.held self.old.store.now).entries k) }
    {
        let e = self.store.entry(k).ok_or(Refusal::DerivedBothSigns)?;
        self.step(k, &e.clause)
    }

    // Sets the highest atom of the false clause c, which has number k, or derives a clause from the reason of that atom and c.
    // Kept `let .. else`: the rules of the project name this form for a step (docs/DECISIONS.md, "Forms").
    fn step(&mut self, k: u16, c: &Clause) -> Result<Step, Refusal>
        ensures named { self.new.store.ghost_name ≡ self.old.store.ghost_name }
        ensures made { after (S.held self.new.store.now) self.new.search (answer result) ≡ step (S.held self.old.store.now) self.old.search k c.now }
    {
        let p = c.highest();
        if p == 0 {
            return Err(Refusal::DerivedBothSigns);
        }
        if c.has_positive(p) {
            self.search.set(p, k);
            return Ok(Step::Setting);
        }
        let Some(r) = self.search.reason(p) else {
            return Err(Refusal::DerivedBothSigns);
        };
        let Some(reason) = self.store.entry(r) else {
            return Err(Refusal::DerivedBothSigns);
        };
        let Some(d) = reason.clause.resolve(c) else {
            return Err(Refusal::DerivedBothSigns);
        };
        if d.is_empty() {
            self.search.refute(r, k);
            return Ok(Step::Derivation);
        }
        if self.store.size() == self.store.places() {
            return Err(Refusal::NoPlaceFree);
        }
        let _ = self.store.put(Entry::derived(d, r, k));
        self.search.derive(d.highest());
        Ok(Step::Derivation)
    }

    // The word of the true atoms, under a satisfiable verdict.
    pub fn show(&self) -> Result<u64, Refusal>
        ensures { answer result ≡ shown self.now.search }
    {
        match self.search.phase {
            Phase::Unopened(e) => Err(e),
            Phase::Satisfied => Ok(self.search.valuation),
            _ => Err(Refusal::NoVerdict),
        }
    }
}
