// What the machine of a state machine does.
ghost use Rattle.syf_machine.specs.Law.{MachineDoesAs};

use fsm_machine::{
    assigned_is_known, resets_from_all, runs_after_reset, runs_from_state, steps_with_state,
};
use text_names::texts_are_free;

/// The machine of a state machine by codes of its states does what the state machine does: with the code of a state in the registers
/// its outputs and next code are those of the walk, and a vector that resets does so from all contents.
pub fn machine_does_as()
    ensures { MachineDoesAs }
{
    steps_with_state();
    resets_from_all();
    runs_from_state();
    runs_after_reset();
    texts_are_free();
    assigned_is_known();
}
