// Graphs of inverters and gates of two inputs, and netlists that map them.
ghost use Rattle.graph_theory.specs.Laws.{MappedIsInOrder, MappedIsLean, MappedIsRight, MappedShows, PlainIsCut};

/// An expression that computes a node's kind from its sons gives its bit.
pub fn plain_is_cut()
    ensures { PlainIsCut }
{}

/// A netlist that maps the graph of a machine shows its nodes, and those mean the machine.
pub fn mapped_shows()
    ensures { MappedShows }
{}

/// So it is well formed for the machine, and behaves as it does.
pub fn mapped_is_right()
    ensures { MappedIsRight }
{}

/// Its instances stand in the order of a netlist.
pub fn mapped_is_in_order()
    ensures { MappedIsInOrder }
{}

/// It has at most as many gates as the machine's size and 2.
pub fn mapped_is_lean()
    ensures { MappedIsLean }
{}
