// How the refusal of a cell is told.
ghost use Rattle.std.specs.Prelude.{◌≡◌};
ghost use Rattle.cell_lib.specs.declared.error.LibError.TheVariants.{BadCell};
ghost use Rattle.cell_lib.specs.Cells.{OrMemory};
ghost use Rattle.cell_lib.specs.Causes.{told_as};

use crate::LibError;
use std::alloc::Global;
use vlsi_base::{ReadError, Text};

/// The check that a cell fails whose vbe has a fault.
pub const UNREAD_BEHAVIOUR: u8 = 1;

/// The check that a cell fails whose ap has a fault or an instance.
pub const UNREAD_LAYOUT: u8 = 2;

/// The cell fails this check.
pub fn bad_cell(alloc: Global, cell: &Text, cause: u8) -> LibError
    ensures { OrMemory (λ told. told ≡ BadCell cell.now cause) result }
{
    match cell.copy(alloc) {
        Ok(cell) => LibError::BadCell { cell, cause },
        Err(_) => LibError::Memory,
    }
}

/// How the refusal of a cell's file is told: a fault by the number of its check, and a limit as it is.
pub fn told_as(alloc: Global, cell: &Text, cause: u8, e: ReadError) -> LibError
    ensures { OrMemory (λ told. told ≡ told_as cell.now cause e) result }
{
    match e {
        ReadError::Memory => LibError::Memory,
        ReadError::Limit(limit) => LibError::Limit(limit),
        ReadError::Input(_) => bad_cell(alloc, cell, cause),
    }
}
