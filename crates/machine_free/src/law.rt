// What is true of machines whose outputs are left free in part.
ghost use Rattle.machine_free.specs.Cycles.{NothingFree, FreeIsGreater};
ghost use Rattle.machine_free.specs.Between.{EachRunMay};

/// Where nothing is left free, the two machines are one, and it may do what it does. Erased at run time.
pub fn nothing_free()
    ensures { NothingFree }
{}

/// Each run of a machine that is chosen among what is left free is one that is left free. Erased at run time.
pub fn each_run_may()
    ensures { EachRunMay }
{}

/// Whatever the names' bits are, an equation with each free bit 1 has at least the value that it has with each 0; where nothing is left
/// free in it, both are one. Erased at run time.
pub fn free_is_greater()
    ensures { FreeIsGreater }
{}
