// The behaviour of a cell, from its text.
ghost use Rattle.std.specs.Prelude.{IfOk, IfErr};
ghost use Rattle.vbe_io.specs.Cell.{IsCellText};
ghost use Rattle.cell_lib.specs.Cells.{OrMemory};
ghost use Rattle.cell_lib.specs.Causes.{IsVbeRefusal};

use crate::LibError;
use crate::causes::{UNREAD_BEHAVIOUR, told_as};
use std::alloc::Global;
use vbe_io::{CellText, read_cell_vbe};
use vlsi_base::Text;

/// What the vbe of the cell of this name says. It fails check 1 where its vbe has a fault; a limit that this passes is told as it
/// is.
pub fn read_behaviour(alloc: Global, cell: &Text, vbe: &[u8]) -> Result<CellText, LibError>
    ensures ok { IfOk result (λ text. IsCellText vbe.now text) }
    ensures err { IfErr result (λ e. OrMemory (IsVbeRefusal cell.now vbe.now) e) }
{
    match read_cell_vbe(alloc, vbe) {
        Ok(text) => Ok(text),
        Err(e) => Err(told_as(alloc, cell, UNREAD_BEHAVIOUR, e)),
    }
}
