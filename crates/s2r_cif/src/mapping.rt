// Whether all cells of a figure are mappable.
ghost use Rattle.std.specs.Prelude.{◌≡◌, ◌⊎◌, ◌∷◌, IfErr, OnOk, [], All};
ghost use Rattle.std.specs.Option.{option_copied};
ghost use Rattle.cell_model.specs.Layout.{instances_of};
ghost use Rattle.cell_model.specs.Library.{cell_named};
ghost use Rattle.cell_checks.specs.Checked.{library_of};
ghost use Rattle.s2r_cif.specs.Refused.{AreMappable, IsMappingRefusal};
ghost use Rattle.s2r_cif.specs.declared.error.RealError.TheVariants as error;

use crate::error::RealError;
use cell_model::{Cell, is_mappable};
use std::alloc::Global;
use sym_geom::Item;
use vlsi_base::Text;

/// The first cell of this name. Takes time for each cell.
pub fn cell_of<'c>(cells: &'c [Cell], model: &Text) -> Option<&'c Cell>
    ensures { option_copied result ≡ cell_named cells.now model.now }
{
    for cell in cells {
        if cell.name.is_same(model) {
            return Some(cell);
        }
    }
    None
}

fn unmappable(alloc: Global, model: &Text) -> RealError
    ensures { (result ≡ error.Memory) ⊎ (result ≡ error.NotMappable model.now) }
{
    match model.copy(alloc) {
        Ok(model) => RealError::NotMappable(model),
        Err(_) => RealError::Memory,
    }
}

/// Refuses a line that is an instance of a cell that isn't mappable.
fn check_item(alloc: Global, item: &Item, cells: &[Cell]) -> Result<(), RealError>
    ensures mappable { OnOk result (AreMappable (instances_of (item.now ∷ [])) (library_of cells.now)) }
    ensures refused { IfErr result (λ e. IsMappingRefusal (instances_of (item.now ∷ [])) (library_of cells.now) e) }
{
    let Item::Instance(instance) = item else {
        return Ok(());
    };
    let Some(cell) = cell_of(cells, &instance.model) else {
        return Ok(());
    };
    if is_mappable(cell) {
        Ok(())
    } else {
        Err(unmappable(alloc, &instance.model))
    }
}

/// Refuses the first instance whose cell isn't mappable. Takes time for each instance, each cell and the lines of the instances'
/// cells.
pub fn check_mappable(alloc: Global, items: &[Item], cells: &[Cell]) -> Result<(), RealError>
    ensures mappable { OnOk result (AreMappable (instances_of items.now) (library_of cells.now)) }
    ensures refused { IfErr result (λ e. IsMappingRefusal (instances_of items.now) (library_of cells.now) e) }
{
    for item in items {
        check_item(alloc, item, cells)?;
    }
    Ok(())
}
