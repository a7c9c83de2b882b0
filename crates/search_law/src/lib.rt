// The law of the search: what every call of a session keeps, and what its answers say of the accepted clauses.
#![tactic(auto)]

ghost use Rattle.search_law.specs.Law.{OpenLaw, AddLaw, LoadLaw, RunLaw, AmpleLaw, ShowLaw, DeriveLaw, SettingLaw, LeastLaw, CountLaw};
ghost use Rattle.search_law.specs.Texts.{ClauseLaw, BoundLaw, DecideLaw};

// Opening begins with the invariant; add, load and run keep it; run and show say what holds of the accepted clauses.
pub fn search_stands()
    ensures opens { OpenLaw }
    ensures adds { AddLaw }
    ensures loads { LoadLaw }
    ensures runs { RunLaw }
    ensures budgets { AmpleLaw }
    ensures shows { ShowLaw }
{}

// Every clause of a text has an atom, and none above those of its session; a text writes the same for every bound that its count of atoms keeps; and where
// its clauses have places, a session just opened takes all of them, and a run then ends as the law says for just these clauses.
pub fn loads_stand()
    ensures clauses { ClauseLaw }
    ensures bounds { BoundLaw }
    ensures decides { DecideLaw }
{}

// A derived clause is false, has no atom in both signs and is not held; a setting raises the highest true atom.
pub fn steps_stand()
    ensures derives { DeriveLaw }
    ensures sets { SettingLaw }
{}

// Accepted clauses have at most one least valuation.
pub fn least_stands()
    ensures { LeastLaw }
{}

// The counts of a session are exact.
pub fn counts_stand()
    ensures { CountLaw }
{}
