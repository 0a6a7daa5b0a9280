//! A netlist by a bit for each terminal: what a valuation is, what instances hold, and bits where the classes have other numbers. Beside its
//! law its definitions and lemmas are cited.
#![tactic(auto)]

ghost use Rattle.net_bits.specs.Seen.{EachNetlistIsSeen};

/// Each netlist in memory is seen as one of those that layouts give.
pub fn each_netlist_is_seen()
    ensures { EachNetlistIsSeen }
{}
