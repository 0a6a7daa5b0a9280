// What is read of state machines has names that can be written again.
ghost use Rattle.fsm_laws.specs.Writable.{FsmIsNamed, FsmIsShort, MachineCanBeWritten};

use vbe_writable::in_order_can_be_written;

/// The name of a state machine that is read is an identifier, an entity can declare its ports, and its clock is a scalar; and names
/// have at most 64 bytes and bits numbers of 32 bits.
pub fn fsm_is_named()
    ensures named { FsmIsNamed }
    ensures short { FsmIsShort }
{}

/// The machine of a state machine that is read can be written as a data-flow text.
pub fn machine_of_fsm_can_be_written()
    ensures { MachineCanBeWritten }
{
    fsm_is_named();
    in_order_can_be_written();
}
