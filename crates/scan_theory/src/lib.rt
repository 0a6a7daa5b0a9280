//! A scan path through the registers of a netlist: what it is, and what the netlist with it does.
#![tactic(auto)]

ghost use Rattle.scan_theory.specs.Laws.{ScannedMeets, ScannedScans};

/// A netlist with a scan path meets what the stages ask of it, where the given one does.
pub fn scanned_meets()
    ensures { ScannedMeets }
{}

/// Where test is 0, a netlist with a scan path behaves as the given one; where test is 1, its registers are a shift register in the
/// order of the path.
pub fn scanned_scans()
    ensures { ScannedScans }
{}
