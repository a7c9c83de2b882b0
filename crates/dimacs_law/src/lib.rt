// Laws of the texts that are read: their words, what stands before their heading, when they are accepted, and examples.
#![tactic(auto)]

ghost use Rattle.dimacs_law.specs.Cut.{WordsAreTheCut};
ghost use Rattle.dimacs_law.specs.Lines.{PrefaceIsLines};
ghost use Rattle.dimacs_law.specs.Examples.{Reads, Faults};
ghost use Rattle.dimacs_law.specs.Grammar.{TextsAreSpelled};

// The words of a text are the one way to cut it at its blanks.
pub fn words_stand()
    ensures { WordsAreTheCut }
{}

// What is passed over before the heading are comment lines and blanks.
pub fn preface_stands()
    ensures { PrefaceIsLines }
{}

// A text is accepted exactly where its words spell a heading and its clauses, and it writes those.
pub fn texts_stand()
    ensures { TextsAreSpelled }
{}

pub fn examples_stand()
    ensures { Reads × Faults }
{}
