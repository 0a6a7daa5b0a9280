// What follows from the definitions of a text and of its refusals.
ghost use Rattle.vst_io.specs.Laws.{NeverBoth, OneNetlist, OneRefusal};

/// A text is at most one netlist.
pub fn one_netlist()
    ensures { OneNetlist }
{}

/// A text that is a netlist has no refusal.
pub fn never_both()
    ensures { NeverBoth }
{}

/// A text has at most one refusal; only of several rings any may be named.
pub fn one_refusal()
    ensures { OneRefusal }
{}
