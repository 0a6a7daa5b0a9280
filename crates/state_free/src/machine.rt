// The machines of a state machine whose outputs are left free in part.
ghost use Rattle.std.specs.Prelude.{◌<◌, ◌^◌, ◌+◌, ◌-◌, length, IfOk};
ghost use Rattle.fsm_machine.specs.Codes.{AreCodes};
ghost use Rattle.machine_free.specs.Free.{AreFree};
ghost use Rattle.syf_machine.specs.Named.{HasFewSignals, IsMachineOf};
ghost use Rattle.state_free.specs.Free.{AreFreeFsm};
ghost use Rattle.state_free.specs.Meaning.{MayDoAs};

use crate::law::{both_are_checked, machines_are_free, machines_may_do_as};
use crate::state_machine::FreeStateMachine;
use fsm_code::Codes;
use machine_free::FreeMachine;
use std::alloc::{AllocError, Global};
use syf_machine::machine_of;

/// The two machines of a state machine whose outputs are left free in part, by codes of its states: that of the state machine with each
/// free bit 0, and that with each 1. They agree in all but the outputs that are left free, and may do what the state machine may do.
/// Takes memory and time for both.
pub fn free_machine_of(
    alloc: Global,
    machine: &FreeStateMachine,
    codes: &Codes,
) -> Result<FreeMachine, AllocError>
    requires free { AreFreeFsm machine.now.low machine.now.high }
    requires codes { AreCodes (length machine.now.low.states) codes.now }
    requires few { HasFewSignals machine.now.low codes.now }
    ensures low { IfOk result (λ m. IsMachineOf machine.now.low codes.now m.low) }
    ensures high { IfOk result (λ m. IsMachineOf machine.now.high codes.now m.high) }
    ensures free { IfOk result (λ m. AreFree m.low m.high) }
    ensures may { IfOk result (λ m. MayDoAs machine.now.low machine.now.high codes.now m.low m.high) }
    ensures few { IfOk result (λ m. length m.low.vars + length m.low.ports < 2 ^ 32 - 2 ^ 16) }
{
    machines_are_free();
    machines_may_do_as();
    both_are_checked();
    // State machines have passed their checks.
    let _ = machine.low.name();
    let low = machine_of(alloc, &machine.low, codes)?;
    let high = machine_of(alloc, &machine.high, codes)?;
    Ok(FreeMachine { low, high })
}
