ghost use Rattle.std.specs.Prelude.{◌≡◌, ℕ, ◌≤◌};
ghost use Rattle.std.proofs.Common.{rules};
ghost use Rattle.std.specs.Cmp.{partial_order_from_own_ties};
ghost use Rattle.std.specs.Cmp.Rules.{comparing};
ghost use Rattle.std.specs.Ordering.{as_partial_cmp};
ghost use Rattle.clause.specs.Clauses.{lits};
ghost use Rattle.clause.specs.Order.{treats, rank, treated, Decided, Compares, clause_cmp};

use crate::truth::{highest_in, stands};
use crate::words::Clause;
use std::cmp::Ordering;

// How a clause treats an atom, in the order of clauses.
#[derive(Clone, Copy, PartialEq, Eq, PartialOrd, Ord)]
pub(crate) enum Treatment {
    Absent,
    Positive,
    Negative,
}

impl Clause {
    fn treatment(&self, atom: u32) -> Treatment
        ensures { treated result ≡ treats (lits self.now) atom }
    {
        if stands(self.positive, atom) {
            Treatment::Positive
        } else if stands(self.negative, atom) {
            Treatment::Negative
        } else {
            Treatment::Absent
        }
    }
}

fn order_of(mine: Treatment, theirs: Treatment) -> Ordering
    ensures { Compares (treated mine) (treated theirs) result }
{
    mine.cmp(&theirs)
}

// The order of clauses, decided at the highest atom that the two treat differently; a derive would compare the positive words first.
impl Ord for Clause {
    ghost cmp = { clause_cmp };

    ghost total = { Prim.search (comparing, rules) };

    ghost matches_partial_cmp = { Prim.search (comparing, rules) };

    ghost matches_eq = { Prim.search (comparing, rules) };

    fn cmp(&self, other: &Clause) -> Ordering
        ensures value { result ≡ clause_cmp self.now other.now }
        ensures atoms { Decided (lits self.now) (lits other.now) result }
        ensures ranks { Compares (rank (lits self.now)) (rank (lits other.now)) result }
    {
        let differs = (self.positive ^ other.positive) | (self.negative ^ other.negative);
        let atom = highest_in(differs);
        order_of(self.treatment(atom), other.treatment(atom))
    }
}

impl PartialOrd for Clause {
    ghost partial_cmp = { as_partial_cmp clause_cmp };

    ghost laws = { partial_order_from_own_ties (Prim.search (comparing, rules)) (Prim.search (comparing, rules)) };

    fn partial_cmp(&self, other: &Clause) -> Option<Ordering> {
        Some(self.cmp(other))
    }
}
