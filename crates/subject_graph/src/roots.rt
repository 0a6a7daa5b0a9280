// The table of a machine, and its roots.
ghost use Rattle.std.specs.Prelude.{IfOk};
ghost use Rattle.subject_graph.specs.Subject.{IsNumberable};
ghost use Rattle.subject_graph.specs.Stages.{IsRooted};

use crate::loads::load_numbers;
use crate::names::{output_numbers, solved};
use machine_core::Machine;
use std::alloc::{AllocError, Global};
use subject_table::Table;

/// The nodes of a machine, and the numbers of its outputs and of what its registers load.
#[derive(Drop)]
pub(crate) struct Rooted {
    pub(crate) table: Table,
    pub(crate) outputs: Vec<u32>,
    pub(crate) loads: Vec<u32>,
}

/// The nodes and roots of a machine. Takes memory for them, and while they are made for the numbers of all names.
pub(crate) fn make_rooted(alloc: Global, m: &Machine) -> Result<Rooted, AllocError>
    requires { IsNumberable m.now }
    ensures { IfOk result (λ r. IsRooted m.now r.table r.outputs.items r.loads.items) }
{
    let (mut table, numbers) = solved(alloc, m)?;
    let names = m.vars().as_slice();
    let outputs = output_numbers(alloc, names, m.ports().as_slice(), &numbers)?;
    let loads = load_numbers(alloc, &mut table, m.registers().as_slice(), &numbers)?;
    Ok(Rooted {
        table,
        outputs,
        loads,
    })
}
