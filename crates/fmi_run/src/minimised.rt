// The machine with the fewest states, or the status that tells why there is none.
ghost use Rattle.std.specs.Prelude.{◌≡◌, ◌<◌, ◌≤◌, ◌^◌, length, IfOk, OnOk, IfErr};
ghost use Rattle.fsm_walk.specs.Reads.{inputs_read};
ghost use Rattle.fmi_min.specs.declared.vectors.TheConstants.{MOST_INPUTS};
ghost use Rattle.tool_drive.specs.Refusals.{MemoryOr};
ghost use Rattle.fmi_run.specs.Fmi.{IsMinimal, IsTooMany};

use fmi_min::{MinError, minimise};
use fsm_core::StateMachine;
use std::alloc::Global;
use tool_drive::Status;
use vlsi_base::{Limit, LimitKind};

/// The state machine with the fewest states, or `Limit` of `Inputs`, or out of memory.
pub(crate) fn minimised(alloc: Global, machine: &StateMachine) -> Result<StateMachine, Status>
    requires { length machine.now.ports < 2 ^ 32 }
    ensures made { IfOk result (λ made. IsMinimal machine.now made) }
    ensures few { OnOk result (inputs_read machine.now ≤ MOST_INPUTS) }
    ensures refused { IfErr result (λ s. MemoryOr s (IsTooMany machine.now s)) }
{
    match minimise(alloc, machine) {
        Ok(made) => Ok(made.fsm),
        Err(MinError::Memory) => Err(Status::Memory),
        Err(MinError::Inputs(inputs)) => Err(Status::Limit(Limit {
            which: LimitKind::Inputs,
            reached: u64::from(inputs),
        })),
    }
}
