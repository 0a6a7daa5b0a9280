// How many ports and pins a layout has.
ghost use Rattle.std.specs.Prelude.{◌≡◌, ◌∷◌, [], ◌+◌, ◌-◌, ◌^◌, min};
ghost use Rattle.std.specs.List.{All};
ghost use Rattle.cell_model.specs.Usable.{IsFormed};
ghost use Rattle.cell_checks.specs.Checked.{library_of};
ghost use Rattle.cougar_extract.specs.Refused.{pin_count};

use crate::cells::cell_of;
use cell_model::Cell;
use sym_geom::Item;

/// How many pins the instance on a line has, vdd and vss among them; none where it is no instance of a cell.
fn line_pins(cells: &[Cell], item: &Item) -> u64
    requires { All IsFormed cells.now }
    ensures { result ≡ pin_count (item.now ∷ []) (library_of cells.now) }
{
    let Item::Instance(instance) = item else {
        return 0;
    };
    match cell_of(cells, &instance.model) {
        Some(cell) => cell.pins.as_slice().len() as u64 + 2,
        None => 0,
    }
}

/// How many ports and pins of instances there are, where there are so many ports; or the greatest number of the type where that is
/// less. Takes time for each instance and each cell.
pub(crate) fn terminal_count(ports: usize, items: &[Item], cells: &[Cell]) -> u64
    requires { All IsFormed cells.now }
    ensures { result ≡ min (ports + pin_count items.now (library_of cells.now)) (2 ^ 64 - 1) }
{
    let mut count = ports as u64;
    for item in items {
        count = count.saturating_add(line_pins(cells, item));
    }
    count
}
