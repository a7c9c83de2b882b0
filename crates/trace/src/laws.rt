ghost use Rattle.trace.specs.Laws.{MarkLaw, LineLaw};

// What the marks and the lines of a trace are, by the antecedents of the entries.
pub fn laws_stand()
    ensures marks { MarkLaw }
    ensures lines { LineLaw }
{}
