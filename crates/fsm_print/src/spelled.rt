// What is read of state machines can be written as texts of state machines.
ghost use Rattle.fsm_print.specs.Spelled.{FsmCanBeWritten, OneText};

use fsm_io::fsm_is_checked;
use fsm_laws::fsm_is_named;
use vbe_writable::in_order_can_be_written;

/// Each state machine that is read can be written: its names are identifiers, its states have names of their own, and no expression
/// has a choice.
pub fn fsm_can_be_written()
    ensures { FsmCanBeWritten }
{
    fsm_is_named();
    fsm_is_checked();
    in_order_can_be_written();
}

/// A state machine has one text.
pub fn one_text()
    ensures { OneText }
{}
