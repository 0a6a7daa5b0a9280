// A state machine whose outputs are left free in part.

use fsm_core::StateMachine;

/// A state machine whose outputs are left free in part: two state machines, with every free bit 0 in the one and 1 in the other. They
/// agree in all but assignments of these two bits to an output (`AreFreeFsm`).
#[derive(Drop)]
pub struct FreeStateMachine {
    pub low: StateMachine,
    pub high: StateMachine,
}
