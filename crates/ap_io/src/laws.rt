// What follows from the definitions of an ap file and of its refusals.
ghost use Rattle.ap_io.specs.Laws.{LinesAreReadAgain, LinesSayOneFigure, NeverBoth, OneFigure, OneRefusal, ReadIsAFigure, WrittenIsReadAgain};

/// A file is that of at most one figure.
pub fn one_figure()
    ensures { OneFigure }
{}

/// Lines of the format say at most one figure, however long they are together.
pub fn lines_say_one_figure()
    ensures { LinesSayOneFigure }
{}

/// A file that is a figure's has no refusal.
pub fn never_both()
    ensures { NeverBoth }
{}

/// A file has at most one refusal.
pub fn one_refusal()
    ensures { OneRefusal }
{}

/// The figure of a file is one that the format can hold: each item has its form, widths are at least 1, the edges of the box
/// stand in order, and no two instances have one name. It is within the limits, and it has fewer items than the file has
/// bytes.
pub fn what_is_read_is_a_figure()
    ensures { ReadIsAFigure }
{}

/// What is written of a figure that the format can hold, and that is within the limits, is the ap file of this figure.
pub fn written_is_read_again()
    ensures { WrittenIsReadAgain }
{}

/// What is written of a figure that the format can hold, and whose lines are within the limits, is lines of the format that say this
/// figure, however long the text is.
pub fn lines_are_read_again()
    ensures { LinesAreReadAgain }
{}
