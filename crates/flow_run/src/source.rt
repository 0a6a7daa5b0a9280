// What a source is read as.
use fsm_code::Codes;
use fsm_core::StateMachine;
use machine_core::Machine;

/// Where a machine comes from: a data-flow text, or a state machine with codes of its states.
#[derive(Drop)]
pub(crate) enum Origin {
    Equations,
    States(StateMachine, Codes),
}

/// A source's machine, and where it comes from.
#[derive(Drop)]
pub(crate) struct Source {
    pub(crate) origin: Origin,
    pub(crate) machine: Machine,
}

/// A source, the most nodes that a diagram of its machine's roots has, and the most sinks that a net may have.
#[derive(Drop)]
pub(crate) struct Counted {
    pub(crate) source: Source,
    pub(crate) nodes: u32,
    pub(crate) fanout: u32,
}
