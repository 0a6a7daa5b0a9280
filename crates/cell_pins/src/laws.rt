// What is true of tables of pins. A law costs nothing when it is called.
ghost use Rattle.cell_pins.specs.Table.{LibrariesHaveTables};

/// The usable cells of each library that has passed its checks have a table of their pins, whether or not `pin_table` makes it.
pub fn libraries_have_tables()
    ensures { LibrariesHaveTables }
{}
