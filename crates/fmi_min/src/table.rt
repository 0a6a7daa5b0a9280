// The moves of a state machine, as a table.
ghost use Rattle.std.specs.Prelude.{◌≡◌, ◌≤◌, ◌<◌, ◌^◌, length, map, IfOk};
ghost use Rattle.fsm_walk.specs.Reads.{read_marks, inputs_read};
ghost use Rattle.fmi_min.specs.declared.vectors.TheConstants.{MOST_INPUTS};
ghost use Rattle.fmi_min.specs.Vectors.{picked};
ghost use Rattle.fmi_min.specs.Table.{IsTable, words_read};

use crate::moves::{moves_of, steps_of};
use crate::vectors::{vector_count, vectors, words};
use bool_expr::Bits;
use fmi_refine::Row;
use fsm_core::StateMachine;
use fsm_walk::{count, output_names};
use net_core::Roll;
use std::alloc::{AllocError, Global};

/// The moves of each state under each vector of the inputs that the body reads, and these vectors.
#[derive(Drop)]
pub(crate) struct Table {
    pub(crate) rows: Vec<Row>,
    pub(crate) vectors: Vec<Bits>,
}

// The moves of the states, under each of these bits of the ports. Takes memory for them, and for each of the different outputs.
fn rows(alloc: Global, machine: &StateMachine, words: &[Bits]) -> Result<Vec<Row>, AllocError>
    requires { words.now ≡ words_read machine.now }
    ensures { IfOk result (λ rows. IsTable machine.now rows.items) }
{
    let outputs = output_names(alloc, machine)?;
    let mut met = Roll::new(alloc);
    let mut rows = Vec::new(alloc);
    for state in 0..machine.states().as_slice().len() as u32 {
        let steps = steps_of(alloc, machine, outputs.as_slice(), words, state)?;
        rows.push(moves_of(alloc, &mut met, &steps)?)?;
    }
    // No outputs are met twice.
    let _ = met.texts();
    Ok(rows)
}

// The table of a state machine. `marks` says which ports the body reads. Takes memory for it.
pub(crate) fn table_of(
    alloc: Global,
    machine: &StateMachine,
    marks: &[bool],
) -> Result<Table, AllocError>
    requires marks { marks.now ≡ read_marks machine.now }
    requires ports { length marks.now < 2 ^ 32 }
    requires few { inputs_read machine.now ≤ MOST_INPUTS }
    ensures table { IfOk result (λ t. IsTable machine.now t.rows.items) }
    ensures vectors { IfOk result (λ t. t.vectors.items ≡ map (picked machine.now.clock machine.now.ports) (words_read machine.now)) }
{
    let words = words(alloc, marks, vector_count(count(marks)))?;
    Ok(Table {
        rows: rows(alloc, machine, &words)?,
        vectors: vectors(alloc, machine, &words)?,
    })
}
