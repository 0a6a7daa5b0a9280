// That each state machine's text is made a machine.
ghost use Rattle.syf_run.specs.EachMachine.{EncodedExists};

use fsm_io::fsm_is_checked;
use fsm_laws::machine_has_few_signals;
use fsm_machine::{encodings_are_codes, machine_is_ordered};
use syf_machine::machine_does_as;
use text_names::texts_are_free;

/// The text of a state machine is made a machine by each style of codes: its names are always few enough. It costs nothing when
/// it is called.
pub fn each_text_is_encoded()
    ensures { EncodedExists }
{
    fsm_is_checked();
    machine_has_few_signals();
    encodings_are_codes();
    texts_are_free();
    machine_is_ordered();
    machine_does_as();
}
