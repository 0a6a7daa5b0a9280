// The netlist of one inverter maps its graph.
ghost use Rattle.graph_theory.specs.Inverter.{InverterMaps};

/// The netlist of one inverter maps the graph of its machine.
pub fn inverter_maps()
    ensures { InverterMaps }
{}
