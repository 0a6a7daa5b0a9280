// What is true of the machines of state machines.
ghost use Rattle.syf_run.specs.Laws.{EncodedCanBeDeclared, EncodedIsOne};

use fsm_io::one_fsm;
use fsm_laws::fsm_is_named;
use vbe_writable::{in_order_can_be_written, pins_are_named};

/// The machine that a state machine's text is made can be declared by an entity of a text, its ports with the supplies. And a text is
/// made one machine by one style. It costs nothing when it is called.
pub fn encoded_law()
    ensures declared { EncodedCanBeDeclared }
    ensures one { EncodedIsOne }
{
    fsm_is_named();
    pins_are_named();
    in_order_can_be_written();
    one_fsm();
}
