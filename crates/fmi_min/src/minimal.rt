// The state machine with the fewest states.
ghost use Rattle.std.specs.Prelude.{◌≡◌, ◌<◌, ◌≤◌, ◌^◌, length, map, IfOk, IfErr, OnOk};
ghost use Rattle.fsm_walk.specs.Reads.{inputs_read};
ghost use Rattle.fsm_merge.specs.Fewest.{IsFewest};
ghost use Rattle.fmi_min.specs.declared.vectors.TheConstants.{MOST_INPUTS};
ghost use Rattle.fmi_min.specs.Vectors.{picked};
ghost use Rattle.fmi_min.specs.Table.{IsTable, words_read};
ghost use Rattle.fmi_min.specs.Tests.{vectors_of_test};
ghost use Rattle.fmi_min.specs.Refused.{IsRefused};

use crate::error::MinError;
use crate::table::{Table, table_of};
use crate::tests::{Tests, all_tests};
use crate::vectors::MOST_INPUTS;
use bool_expr::{Bits, Vars};
use fmi_refine::{Refinement, hints, levels};
use fsm_core::StateMachine;
use fsm_merge::{Numbering, merged_machine};
use fsm_walk::{count, marks};
use std::alloc::{AllocError, Global};
use vlsi_base::Listed;

/// A state machine with the fewest states that does what another does.
#[derive(Drop)]
pub struct Minimal {
    /// The machine.
    pub fsm: StateMachine,
    /// For each old state its new one.
    pub state_of: Vars,
    /// Each vector of the inputs but the clock, in the order of names, that differs in what the machine reads. Inputs that it doesn't read
    /// are 0.
    pub vectors: Listed<Bits>,
    /// For each two new states the numbers of vectors that lead from them to different outputs: at most as many as there are new states.
    pub tests: Tests,
}

// The minimal machine by a table of the moves. Takes memory for partitions of the states, for the tests and for the machine.
fn minimal_by(alloc: Global, machine: &StateMachine, table: Table) -> Result<Minimal, AllocError>
    requires table { IsTable machine.now table.rows.items }
    requires vectors { table.vectors.items ≡ map (picked machine.now.clock machine.now.ports) (words_read machine.now) }
    requires few { inputs_read machine.now ≤ MOST_INPUTS }
    ensures { IfOk result (λ m. IsFewest machine.now m.fsm m.state_of (vectors_of_test m.vectors m.tests)) }
{
    // A machine is checked.
    let _ = machine.name();
    let mut levels = levels(alloc, &table.rows)?;
    let hints = hints(alloc, &table.rows, &levels)?;
    let by = Refinement {
        rows: &table.rows,
        levels: &levels,
        hints: &hints,
    };
    let tests = all_tests(alloc, &by)?;
    let Some(last) = levels.pop() else {
        unreachable!()
    };
    let numbering = Numbering {
        state_of: last.state_of.as_slice(),
        kept: last.kept.as_slice(),
    };
    let fsm = merged_machine(alloc, machine, numbering)?;
    Ok(Minimal {
        fsm,
        state_of: last.state_of,
        vectors: Listed::new(table.vectors),
        tests,
    })
}

/// The state machine with the fewest states that does what `machine` does, with a test for each pair of its states. States become one exactly
/// if they give the same outputs for every list of vectors; the least of them in the order of declaration is kept.
///
/// It is refused by `Inputs` exactly where the body reads more than `MOST_INPUTS` input bits. Takes memory for a move of each state under each
/// vector of the inputs that the body reads, for each of the different outputs, for partitions of the states, and for the tests.
pub fn minimise(alloc: Global, machine: &StateMachine) -> Result<Minimal, MinError>
    requires { length machine.now.ports < 2 ^ 32 }
    ensures fewest { IfOk result (λ m. IsFewest machine.now m.fsm m.state_of (vectors_of_test m.vectors m.tests)) }
    ensures few { OnOk result (inputs_read machine.now ≤ MOST_INPUTS) }
    ensures refused { IfErr result (λ e. IsRefused machine.now e) }
{
    let marks = marks(alloc, machine)?;
    let inputs = count(marks.as_slice());
    if inputs > MOST_INPUTS {
        return Err(MinError::Inputs(inputs));
    }
    let table = table_of(alloc, machine, marks.as_slice())?;
    let made = minimal_by(alloc, machine, table)?;
    Ok(made)
}
