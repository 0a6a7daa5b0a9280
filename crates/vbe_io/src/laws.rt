// What follows from the definitions of a text and of its refusals.
ghost use Rattle.vbe_io.specs.Laws.{NeverBoth, OneRefusal, CellIsMachine, CellNeverBoth};

/// A text that is a machine has no refusal.
pub fn never_both()
    ensures { NeverBoth }
{}

/// A text has at most one refusal; only of several rings any may be named.
pub fn one_refusal()
    ensures { OneRefusal }
{}

/// With a machine, the text of a cell is the text of that machine.
pub fn cell_is_machine()
    ensures { CellIsMachine }
{}

/// A text that is a cell has no refusal as one.
pub fn cell_never_both()
    ensures { CellNeverBoth }
{}
