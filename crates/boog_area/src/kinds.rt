// Which kinds of cells trees need.
ghost use Rattle.std.specs.Prelude.{◌≡◌, IfSome, IfNone, All};
ghost use Rattle.vlsi_base.specs.declared.kind.Kind.{Kind};
ghost use Rattle.vlsi_base.specs.Member.{In};
ghost use Rattle.cell_model.specs.Covering.{HasCellOf, IsFirstMissing};
ghost use Rattle.cell_model.specs.Usable.{IsFormed};
ghost use Rattle.cell_model.specs.Connectors.{PinsAreConnectors};
ghost use Rattle.boog_area.specs.Refused.{tree_kinds, tree_kind as kind_of_trees};

use cell_model::{Cell, Kind, first_missing};

/// The kind, if trees need a cell of it: they have no constants and no registers.
fn tree_kind(kind: Kind) -> Option<Kind>
    ensures { result ≡ kind_of_trees kind }
{
    match kind {
        Kind::Inv => Some(Kind::Inv),
        Kind::Nand2 => Some(Kind::Nand2),
        Kind::Zero => None,
        Kind::One => None,
        Kind::Dff => None,
    }
}

/// The first of the kinds `Inv` and `Nand2` that no usable cell of a list has. Takes no memory.
pub(crate) fn missing_kind(cells: &[Cell]) -> Option<Kind>
    requires formed { All IsFormed cells.now }
    requires connectors { All PinsAreConnectors cells.now }
    ensures missing { IfSome result (λ k. IsFirstMissing cells.now k tree_kinds) }
    ensures none { IfNone result ((k : Kind) → In k tree_kinds → HasCellOf cells.now k) }
{
    match first_missing(cells, false) {
        Some(kind) => tree_kind(kind),
        None => None,
    }
}
