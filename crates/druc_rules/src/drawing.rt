// The shapes of a layout.
ghost use Rattle.std.specs.Prelude.{◌≡◌, ◌<◌, ◌^◌, IfOk, OnOk, IfErr, All, length};
ghost use Rattle.vlsi_base.specs.Member.{In};
ghost use Rattle.sym_geom.specs.Rect.{IsCoordinate};
ghost use Rattle.sym_geom.specs.declared.item.Instance.{Instance as PlacedInstance};
ghost use Rattle.sym_shapes.specs.Ready.{IsReady};
ghost use Rattle.cell_model.specs.Layout.{instances_of, shapes as shapes_of};
ghost use Rattle.cell_model.specs.Usable.{IsFormed};
ghost use Rattle.cell_checks.specs.Checked.{library_of};
ghost use Rattle.cougar_extract.specs.Extracted.{AreKnown};
ghost use Rattle.druc_rules.specs.Breaches.{IsBrokenRefusal};

use crate::error::DrucError;
use cell_model::Cell;
use cougar_extract::{ExtractError, draw_layout};
use std::alloc::Global;
use sym_geom::Item;
use sym_shapes::Shape;
use vlsi_base::{Limit, LimitKind};

/// The shapes of a figure with these cells. It is refused by `UnknownCell` exactly where the model of an instance is no cell, at
/// the first such, and else by `Limit` of `Size` exactly where there are 2^32 or more shapes, with their number. Takes memory for
/// the shapes, and time for them and for each instance and each cell.
pub(crate) fn layout_shapes(
    alloc: Global,
    items: &[Item],
    cells: &[Cell],
) -> Result<Vec<Shape>, DrucError>
    requires ready { All IsReady items.now }
    requires few { length items.now < 2 ^ 32 }
    requires places { (i : PlacedInstance) → In i (instances_of items.now) → IsCoordinate i.x × IsCoordinate i.y }
    requires formed { All IsFormed cells.now }
    ensures shapes { IfOk result (λ shapes. shapes.items ≡ shapes_of items.now (library_of cells.now)) }
    ensures known { OnOk result (AreKnown (instances_of items.now) (library_of cells.now)) }
    ensures few { IfOk result (λ shapes. length shapes.items < 2 ^ 32) }
    ensures refused { IfErr result (λ e. IsBrokenRefusal items.now (library_of cells.now) e) }
{
    let shapes = match draw_layout(alloc, items, cells) {
        Ok(drawing) => drawing.shapes,
        Err(ExtractError::UnknownCell(model)) => return Err(DrucError::UnknownCell(model)),
        Err(ExtractError::Memory) => return Err(DrucError::Memory),
        Err(ExtractError::Limit(_)) => unreachable!(),
        Err(ExtractError::Shorted { .. }) => unreachable!(),
    };
    if shapes.len() > u32::MAX as usize {
        return Err(DrucError::Limit(Limit {
            which: LimitKind::Size,
            reached: shapes.len() as u64,
        }));
    }
    Ok(shapes)
}
