// A machine whose outputs are left free in part.

use machine_core::Machine;

/// A machine whose outputs are left free in part: two machines, with every free bit 0 in the one and 1 in the other. They agree in all
/// but what is said of the outputs that are left free, and no equation reads one of these (`AreFree`).
#[derive(Drop)]
pub struct FreeMachine {
    pub low: Machine,
    pub high: Machine,
}
