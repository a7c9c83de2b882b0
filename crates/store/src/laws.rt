ghost use Rattle.store.specs.Laws.{LeastFalseLaw, FindLaw, PutLaw};

// What follows from the meaning of a store alone: least false, find and put by entries and atoms.
pub fn meaning_stands()
    ensures least { LeastFalseLaw }
    ensures finds { FindLaw }
    ensures puts { PutLaw }
{}
