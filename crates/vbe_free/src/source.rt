// What a text is that may leave outputs free.

use machine_core::Machine;
use machine_free::FreeMachine;

/// What a data-flow text is: a machine, or one whose outputs are left free in part.
#[derive(Drop)]
pub enum VbeSource {
    Fixed(Machine),
    Free(FreeMachine),
}
