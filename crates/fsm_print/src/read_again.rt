// What is written of a state machine is read again.
ghost use Rattle.fsm_print.specs.Again.{FsmIsAccepted, FsmReadAgain};

use crate::written_is_a_sentence;
use fsm_io::{never_both, one_fsm};

/// What the text of a state machine is read as is that state machine, with the same name, ports, clock, states and statements, where it
/// is checked, its names can be declared, its expressions have no choice, and the text is within the limits of texts.
pub fn fsm_read_again()
    ensures { FsmReadAgain }
{
    written_is_a_sentence();
    one_fsm();
}

/// The text of such a state machine passes all checks of texts, and is this state machine: it is refused only where memory has run out.
pub fn fsm_is_accepted()
    ensures { FsmIsAccepted }
{
    written_is_a_sentence();
    never_both();
}
