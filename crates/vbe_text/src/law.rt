// What follows from the grammar.
ghost use Rattle.vbe_text.specs.Laws.{EachSource, NeverBothSource, OneRefusedSource, OneSource};

/// A text is at most one source.
pub fn reads_once()
    ensures { OneSource }
{}

/// A text that is a source has no refusal.
pub fn never_both()
    ensures { NeverBothSource }
{}

/// A text has at most one refusal.
pub fn one_refusal()
    ensures { OneRefusedSource }
{}

/// Each text is a source or has a refusal.
pub fn each_text()
    ensures { EachSource }
{}
