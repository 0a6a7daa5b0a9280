// What is true of routes over the rows of a placement.
ghost use Rattle.nero_nets.specs.Law.{GridsAreSmall, MarksTellNets};

/// The grid over an even placement has fewer nodes than 32 bits can number, where instances and ports are as few as a source within the
/// limits gives.
pub fn grids_are_small()
    ensures { GridsAreSmall }
{}

/// The marks of a layout whose routes lack points tell which terminals are of one net, of as many nets as 64 bits can number.
pub fn marks_tell_nets()
    ensures { MarksTellNets }
{}
