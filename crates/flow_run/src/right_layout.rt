// What is true of right layouts.
ghost use Rattle.flow_run.specs.RightLayout.{RightLayoutsRun};

/// The netlist of a right layout runs under every list of vectors, and from matched contents it gives the machine's outputs.
/// It costs nothing when it is called.
pub fn right_layout_law()
    ensures { RightLayoutsRun }
{}
