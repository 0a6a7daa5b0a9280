// What follows from the grammar.
ghost use Rattle.pat_text.specs.Laws.{EachFile, NeverBothFile, OneFile, OneSyntaxFault};

/// A text is at most one pattern file.
pub fn reads_once()
    ensures { OneFile }
{}

/// A text that is a pattern file has no refusal.
pub fn never_both()
    ensures { NeverBothFile }
{}

/// A text has at most one refusal.
pub fn one_refusal()
    ensures { OneSyntaxFault }
{}

/// Each text is a pattern file or has a refusal.
pub fn each_text()
    ensures { EachFile }
{}
