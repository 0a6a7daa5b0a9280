// What follows from the definitions of walks.
ghost use Rattle.fsm_machine.specs.Assigned.{SureIsAllPaths, AssignedIsKnown};

/// Whether each path of ifs assigns a target is computed without going through the paths.
pub fn sure_is_all_paths()
    ensures { SureIsAllPaths }
{}

/// Where each path of ifs assigns the next state and the outputs, the walk with a state knows them all.
pub fn assigned_is_known()
    ensures { AssignedIsKnown }
{}
