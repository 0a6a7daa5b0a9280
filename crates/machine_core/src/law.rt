// What follows from the order of a machine's equations.
ghost use Rattle.machine_core.specs.Order.{SettlesOnce};
ghost use Rattle.machine_core.specs.Built.{BuiltSettles};

/// An ordered machine has exactly one valuation for each contents of its registers and each input vector.
pub fn settles_once()
    ensures { SettlesOnce }
{}

/// That valuation is the input vector, the contents of the registers, and behind them the value of each equation in turn.
pub fn built_settles()
    ensures { BuiltSettles }
{}
