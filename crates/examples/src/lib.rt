#![tactic(auto)]

ghost use Rattle.examples.specs.Worked.{Examples};

// Worked examples of clauses and sessions with three atoms, by computation from the definitions that the contracts cite.
pub fn examples_stand()
    ensures { Examples }
{}
