// What a netlist's runs are.
ghost use Rattle.net_machine.specs.Runs.{RunsAsItsMachine};

/// A netlist runs as its machine: whatever its instances hold, the bits of its output ports in the cycles of a run are the outputs of
/// its machine from the same contents.
pub fn netlist_runs_as_its_machine()
    ensures { RunsAsItsMachine }
{}
