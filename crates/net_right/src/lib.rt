//! Netlists in memory as the netlists of layouts, and when one is right for a machine.
#![tactic(auto)]

ghost use Rattle.net_right.specs.Right.{RightMeetsCondition};
ghost use Rattle.net_right.specs.Laws.{RightIsWellFormed, SeenIsWellFormed, TerminalsAreThere};
ghost use Rattle.net_right.specs.Same.{SameByNameIsEquivalence};

/// A right netlist whose instances have the pins of their cells meets the condition of the stages behind.
pub fn right_meets_condition()
    ensures { RightMeetsCondition }
{}

/// A right netlist is well formed for its machine and behaves as it does: as the netlist that it is known by, and where its
/// instances have the pins of their cells as each that it can be seen as.
pub fn right_is_well_formed()
    ensures known { RightIsWellFormed }
    ensures seen { SeenIsWellFormed }
{}

/// The terminals of a netlist that fits the table of a checked library are those of the netlist that it is seen as.
pub fn terminals_law()
    ensures { TerminalsAreThere }
{}

/// To have the same ports, instances and joined terminals by name is an equivalence of netlists.
pub fn same_by_name_law()
    ensures { SameByNameIsEquivalence }
{}
