// What is read has names that can be written again.
ghost use Rattle.vbe_writable.specs.Laws.{MachineIsNamed, RegistersAreNamed, MachineIsShort, CatalIsShort, CellIsNamed, PinsAreNamed, CatalIsNamed, InOrderCanBeWritten, MachineCanBeWritten, CellCanBeWritten};

/// The name of a machine that is read is an identifier, and an entity can declare its ports.
pub fn machine_is_named()
    ensures { MachineIsNamed }
{}

/// A text can declare the registers of a machine that is read beside its ports, and its clock is a scalar.
pub fn registers_are_named()
    ensures { RegistersAreNamed }
{}

/// An entity can declare the pins of a cell that is read, with and without a machine.
pub fn cell_is_named()
    ensures { CellIsNamed }
{}

/// With the two supplies put in, ports that an entity can declare are still such ports.
pub fn pins_are_named()
    ensures { PinsAreNamed }
{}

/// The names of the cells that a CATAL uses are identifiers.
pub fn catal_is_named()
    ensures { CatalIsNamed }
{}

/// Ports that an entity can declare can be those of a text in the order of names, where there are some.
pub fn in_order_can_be_written()
    ensures { InOrderCanBeWritten }
{}

/// With the two supplies, the ports of a machine that is read can be those of a text.
pub fn machine_can_be_written()
    ensures { MachineCanBeWritten }
{}

/// With the two supplies, the pins of a cell that is read can be the ports of a text.
pub fn cell_can_be_written()
    ensures { CellCanBeWritten }
{}

/// The names of what is read have at most 64 bytes: those of a machine and of its ports, whose bits have numbers of 32 bits, and
/// those of the cells that a CATAL uses.
pub fn names_are_short()
    ensures machine { MachineIsShort }
    ensures catal { CatalIsShort }
{}
