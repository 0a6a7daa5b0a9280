// What follows from the definitions of a CATAL and of its refusals.
ghost use Rattle.catal.specs.Laws.{OneList, NoneRefused, NeverBoth, OneRefusal};

/// A text has at most one list of cells.
pub fn one_list()
    ensures { OneList }
{}

/// A text that is refused names no cells.
pub fn none_refused()
    ensures { NoneRefused }
{}

/// A text that is a CATAL has no refusal.
pub fn never_both()
    ensures { NeverBoth }
{}

/// A text has at most one refusal.
pub fn one_refusal()
    ensures { OneRefusal }
{}
