// What is true of each netlist that is limited.
ghost use Rattle.loon_fanout.specs.Laws.{LimitedStaysBeside, GroupSplits, BufferedStaysRight, BufferedPasses};
ghost use Rattle.loon_fanout.specs.Nets.{BufferedHasFewInputs, BufferedJoinsNothing, BufferedRemains, BuffersAreNeeded, RightHasFewInputs};

/// No net of a limited netlist has more sinks than the limit; its ports are those of the given one, and behind the given instances
/// stand the gates that were put in.
pub fn limited_law()
    ensures { LimitedStaysBeside }
{}

/// A group of sinks of a class that is put behind one buffer is a split of that class.
pub fn split_law()
    ensures { GroupSplits }
{}

/// Where a netlist of usable cells is right for a machine, it still is once its nets are limited.
pub fn stays_right_law()
    ensures { BufferedStaysRight }
{}

/// A limited netlist of a checked library is of usable cells, and none of its nets has more sinks than the limit.
pub fn remains_law()
    ensures { BufferedRemains }
{}

/// No class of a right netlist but those of vdd, vss and the clock has more input pins than its nets have sinks at most: so it is
/// for the limited netlist, with the limit, where the given one is right.
pub fn few_inputs_law()
    ensures right { RightHasFewInputs }
    ensures buffered { BufferedHasFewInputs }
{}

/// A limited netlist that would do without its buffers has none.
pub fn needed_law()
    ensures { BuffersAreNeeded }
{}

/// A limited netlist joins nothing that was apart, once its buffers are taken out.
pub fn joins_nothing_law()
    ensures { BufferedJoinsNothing }
{}

/// A limited netlist of a checked library passes its checks where the given one does, and its instances' supplies are tied.
pub fn passes_law()
    ensures { BufferedPasses }
{}
