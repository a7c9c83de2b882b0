ghost use Rattle.names.specs.Laws.{InverseLaw, GivenLaw, StaysLaw, RefusedLaw};

// What follows from the meaning of a table alone: names and atoms go together one to one, and for good.
pub fn table_stands()
    ensures inverse { InverseLaw }
    ensures given { GivenLaw }
    ensures stays { StaysLaw }
    ensures refused { RefusedLaw }
{}
