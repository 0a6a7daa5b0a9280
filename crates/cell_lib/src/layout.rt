// The layout of a cell, from its text.
ghost use Rattle.std.specs.Prelude.{◌≡◌, IfOk, IfErr};
ghost use Rattle.std.specs.List.{list_any};
ghost use Rattle.cell_lib.specs.Cells.{OrMemory};
ghost use Rattle.cell_lib.specs.Causes.{is_instance as is_placed_cell, IsLayout, IsLayoutRefusal};

use crate::LibError;
use crate::causes::{UNREAD_LAYOUT, bad_cell, told_as};
use ap_io::{Figure, read_ap};
use std::alloc::Global;
use sym_geom::Item;
use vlsi_base::Text;

fn is_instance(item: &Item) -> bool
    ensures { result ≡ is_placed_cell item.now }
{
    match item {
        Item::Instance(_) => true,
        _ => false,
    }
}

fn has_instance(items: &[Item]) -> bool
    ensures { result ≡ list_any is_placed_cell items.now }
{
    items.iter().any(|item| is_instance(item))
}

/// The layout of the cell of this name. It fails check 2 where its ap has a fault or an instance; a limit that this passes is told
/// as it is.
pub fn read_layout(alloc: Global, cell: &Text, ap: &[u8]) -> Result<Figure, LibError>
    ensures ok { IfOk result (λ figure. IsLayout ap.now figure) }
    ensures err { IfErr result (λ e. OrMemory (IsLayoutRefusal cell.now ap.now) e) }
{
    match read_ap(alloc, ap) {
        Ok(figure) => {
            if has_instance(figure.items.as_slice()) {
                Err(bad_cell(alloc, cell, UNREAD_LAYOUT))
            } else {
                Ok(figure)
            }
        }
        Err(e) => Err(told_as(alloc, cell, UNREAD_LAYOUT, e)),
    }
}
