// Patterns on a netlist and on its machine.
ghost use Rattle.net_sim.specs.Circuit.{SimulatesAlike};

/// Patterns come to the same on a netlist and on its machine.
pub fn simulates_alike()
    ensures { SimulatesAlike }
{}
