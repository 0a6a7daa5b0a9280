// What follows from the grammar.
ghost use Rattle.vst_text.specs.Laws.{EachStructure, NeverBothStructure, OneRefusedStructure, OneStructure};

/// A text is at most one structure.
pub fn reads_once()
    ensures { OneStructure }
{}

/// A text that is a structure has no refusal.
pub fn never_both()
    ensures { NeverBothStructure }
{}

/// A text has at most one refusal.
pub fn one_refusal()
    ensures { OneRefusedStructure }
{}

/// Each text is a structure or has a refusal.
pub fn each_text()
    ensures { EachStructure }
{}
