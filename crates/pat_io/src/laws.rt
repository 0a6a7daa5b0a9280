// What follows from the definitions.
ghost use Rattle.pat_io.specs.Laws.{EachText, NeverBoth, OneMeaning, OneRefusal};
ghost use Rattle.pat_io.specs.ReadAgain.{DigitsReadAgain, WrittenMeansItself};

/// A text means at most one list of patterns.
pub fn means_once()
    ensures { OneMeaning }
{}

/// A text that is a pattern file for some ports has no refusal for them.
pub fn never_both()
    ensures { NeverBoth }
{}

/// A text has at most one refusal for the same ports.
pub fn one_refusal()
    ensures { OneRefusal }
{}

/// Each text is a pattern file for some ports or has a refusal for them.
pub fn each_text()
    ensures { EachText }
{}

/// The digits that are written for a value are those that are read as it.
pub fn digits_read_again()
    ensures { DigitsReadAgain }
{}

/// What is written of patterns for ports, none of which is a supply, has no fault where times never fall, and means the
/// patterns. How it is spelled isn't part of it.
pub fn written_means_itself()
    ensures { WrittenMeansItself }
{}
