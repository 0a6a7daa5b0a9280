// What is the same of all machines, and of all cells, of one text.
ghost use Rattle.vbe_laws.specs.OneMachine.{MachinesWeighTheSame, MachinesHaveTheSameParts, CellsSayTheSame};
ghost use Rattle.vbe_laws.specs.OneMachine.{MachinesHaveTheSameEquations, MachinesSettleTheSame, MachinesRunTheSame};

/// The machines of one text are of one size, and have the same name, ports and clock, and registers of the same names.
pub fn machines_are_the_same()
    ensures size { MachinesWeighTheSame }
    ensures parts { MachinesHaveTheSameParts }
{}

/// The readings of a cell's text have the same name, ports and generics, and machines of one size with the same parts, or none.
pub fn cells_are_the_same()
    ensures { CellsSayTheSame }
{}

/// The machines of one text have by name the same equations and registers, they settle in the same bits, and their runs are one
/// another's.
pub fn machines_do_the_same()
    ensures equations { MachinesHaveTheSameEquations }
    ensures settling { MachinesSettleTheSame }
    ensures runs { MachinesRunTheSame }
{}
