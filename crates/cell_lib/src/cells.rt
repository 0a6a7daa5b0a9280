// The cells of a library, one after another.
ghost use Rattle.std.specs.Prelude.{◌≡◌, IfOk, IfErr, drop};
ghost use Rattle.cell_model.specs.Usable.{IsFormed};
ghost use Rattle.cell_checks.specs.declared.verdict.CellVerdict.TheVariants.{Passes};
ghost use Rattle.cell_checks.specs.Verdict.{IsVerdict};
ghost use Rattle.cell_lib.specs.Cells.{sources, AreCells, IsFirstRefused, OrMemory};
ghost use Rattle.cell_lib.specs.Library.{IsCell, IsCellRefusal, IsCheckRefusal};

use crate::LibError;
use crate::causes::bad_cell;
use crate::make::said_cell;
use cell_checks::{CellVerdict, check_cell};
use cell_model::Cell;
use std::alloc::Global;
use tool_drive::bytes_at;
use vlsi_base::{FileBytes, Limit, LimitKind, Text};

/// A cell that passes its checks.
fn checked(alloc: Global, cell: Cell, tracks: bool) -> Result<Cell, LibError>
    requires { IsFormed cell }
    ensures same { IfOk result (λ c. c ≡ cell) }
    ensures passes { IfOk result (λ c. IsVerdict tracks cell Passes) }
    ensures err { IfErr result (λ e. OrMemory (IsCheckRefusal tracks cell) e) }
{
    match check_cell(alloc, &cell, tracks)? {
        CellVerdict::Passes => Ok(cell),
        CellVerdict::Fails(check) => Err(bad_cell(alloc, &cell.name, check.number())),
        CellVerdict::TooWide(columns) => Err(LibError::Limit(Limit {
            which: LimitKind::Width,
            reached: columns,
        })),
    }
}

/// The cell of this name, from its two files.
fn checked_cell(
    alloc: Global,
    name: &Text,
    vbe: &[u8],
    ap: &[u8],
    tracks: bool,
) -> Result<Cell, LibError>
    ensures ok { IfOk result (λ c. IsCell tracks (record { name = name.now; vbe = vbe.now; ap = ap.now }) c) }
    ensures err { IfErr result (λ e. OrMemory (IsCellRefusal tracks (record { name = name.now; vbe = vbe.now; ap = ap.now })) e) }
{
    let cell = said_cell(alloc, name, vbe, ap)?;
    checked(alloc, cell, tracks)
}

fn behind_two(files: &[FileBytes]) -> &[FileBytes]
    ensures { result.now ≡ drop 2 files.now }
{
    if files.len() < 2 { &[] } else { &files[2..] }
}

/// The cells with these names, whose behaviours and layouts stand in `files` one behind the other. Each is made before the next,
/// and the first that is none is told.
pub(crate) fn cells_of(
    alloc: Global,
    names: &[Text],
    files: &[FileBytes],
    tracks: bool,
) -> Result<Vec<Cell>, LibError>
    ensures ok { IfOk result (λ cells. AreCells (IsCell tracks) (sources names.now files.now) cells.items) }
    ensures err { IfErr result (λ e. OrMemory (IsFirstRefused (IsCell tracks) (IsCellRefusal tracks) (sources names.now files.now)) e) }
{
    let mut cells = Vec::new(alloc);
    let mut rest = files;
    for name in names {
        match checked_cell(alloc, name, bytes_at(rest, 0), bytes_at(rest, 1), tracks) {
            Ok(cell) => cells.push(cell)?,
            Err(e) => return Err(e),
        }
        rest = behind_two(rest);
    }
    Ok(cells)
}
