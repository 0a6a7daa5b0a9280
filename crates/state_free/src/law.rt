// What is true of state machines whose outputs are left free in part.
ghost use Rattle.state_free.specs.Law.{BothAreChecked, BothMayRun, BothWalkAlike, FreeRunsExist, MachinesAreFree, MachinesMayDoAs, NothingFreeInStates, SameCodes};

use fsm_machine::assigned_is_known;
use text_names::texts_are_free;

/// The machines of the two by one encoding agree in all but the outputs that are left free, which no equation reads. Erased at run
/// time.
pub fn machines_are_free()
    ensures { MachinesAreFree }
{
    texts_are_free();
}

/// With the code of a state in the registers, what the machines of the two may do is what the state machine may do from that state;
/// and a vector that resets does so from all contents. Erased at run time.
pub fn machines_may_do_as()
    ensures { MachinesMayDoAs }
{
    texts_are_free();
    assigned_is_known();
}

/// Where nothing is left free, both state machines are one, and it may do what it does. Erased at run time.
pub fn nothing_free_in_states()
    ensures { NothingFreeInStates }
{}

/// Each run of the one or of the other state machine is one that is left free. Erased at run time.
pub fn both_may_run()
    ensures { BothMayRun }
{}

/// From each state there is a run under all vectors. Erased at run time.
pub fn free_runs_exist()
    ensures { FreeRunsExist }
{
    assigned_is_known();
}

/// Both state machines lead to the same states, with a state or with none. Erased at run time.
pub fn both_walk_alike()
    ensures { BothWalkAlike }
{}

/// Each encoding gives the states of both state machines the same codes. Erased at run time.
pub fn same_codes()
    ensures { SameCodes }
{}

/// Where the state machine with each free bit 0 has passed its checks, so has the one with each 1, and its signals are as many. Erased
/// at run time.
pub fn both_are_checked()
    ensures { BothAreChecked }
{}
