//! What a netlist of cells means, in `specs/`: which netlist a layout gives, how it behaves, when it is well formed for a
//! machine and behaves as the machine does, and which symbolic rules a layout breaks.
#![tactic(auto)]

ghost use Rattle.net_meaning.specs.Laws.{GivesOneNetlist};

/// A layout gives one netlist: two that its lines give have the same ports and instances, and tie the same terminals.
pub fn one_netlist_law()
    ensures { GivesOneNetlist }
{}
