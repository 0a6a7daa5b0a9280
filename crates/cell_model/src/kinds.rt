// Which kind of function a cell has, and which kinds a library lacks.
ghost use Rattle.std.specs.Prelude.{◌≡◌, ◌↔◌, ◌∷◌, [], Bool, not, ◌&&◌, length, filter, IsTrue, IfSome, IfNone, All};
ghost use Rattle.vlsi_base.specs.Member.{In};
ghost use Rattle.bool_expr.specs.Expression.{val, IsOver};
ghost use Rattle.bool_expr.specs.View.{view};
ghost use Rattle.machine_core.specs.Machine.{is_input};
ghost use Rattle.cell_model.specs.Library.{IsUsable};
ghost use Rattle.cell_model.specs.Usable.{IsFormed};
ghost use Rattle.cell_model.specs.Connectors.{PinsAreConnectors};
ghost use Rattle.cell_model.specs.Covering.{IsGateOf, HasKind, HasCellOf, needed, IsFirstMissing};
ghost use Rattle.vlsi_base.specs.declared.kind.Kind.{Kind};

use crate::{Cell, Function, Kind, Pin, usable};
use bool_expr::{Expr, value_at};
use vlsi_base::Dir;

fn count_inputs(pins: &[Pin]) -> usize
    ensures { result ≡ length (filter (λ p. is_input p.port.dir) pins.now) }
{
    pins.iter().filter(|pin| pin.port.dir == Dir::In).count()
}

/// Whether a gate of one input gives the inverse of it.
fn is_inverter(e: &Expr) -> bool
    requires { IsOver (view e.now) 1 }
    ensures { IsTrue result ↔ ((a : Bool) → val (view e.now) (a ∷ []) ≡ not a) }
{
    value_at(e, &[false]) && !value_at(e, &[true])
}

/// Whether a gate of two inputs gives 0 exactly where both are 1.
fn is_nand(e: &Expr) -> bool
    requires { IsOver (view e.now) 2 }
    ensures { IsTrue result ↔ ((a b : Bool) → val (view e.now) (a ∷ b ∷ []) ≡ not (a && b)) }
{
    value_at(e, &[false, false])
        && value_at(e, &[false, true])
        && value_at(e, &[true, false])
        && !value_at(e, &[true, true])
}

/// The kind of a gate of so many inputs.
fn gate_kind(e: &Expr, inputs: usize) -> Option<Kind>
    requires { IsOver (view e.now) inputs }
    ensures kind { IfSome result (λ k. IsGateOf (view e.now) inputs k) }
    ensures none { IfNone result ((k : Kind) → IsGateOf (view e.now) inputs k → ⊥) }
{
    if inputs == 0 {
        return if value_at(e, &[]) {
            Some(Kind::One)
        } else {
            Some(Kind::Zero)
        };
    }
    if inputs == 1 && is_inverter(e) {
        return Some(Kind::Inv);
    }
    if inputs == 2 && is_nand(e) {
        return Some(Kind::Nand2);
    }
    None
}

/// The kind of a cell, by its function on all vectors. Takes no memory.
pub fn kind_of(cell: &Cell) -> Option<Kind>
    requires { IsFormed cell.now }
    ensures kind { IfSome result (λ k. HasKind cell.now k) }
    ensures none { IfNone result ((k : Kind) → HasKind cell.now k → ⊥) }
{
    match cell.function.as_enum() {
        Function::Gate(e) => gate_kind(e, count_inputs(cell.pins.as_slice())),
        Function::FlipFlop { .. } => Some(Kind::Dff),
        Function::Other(_) => None,
        Function::Opaque => None,
    }
}

/// Whether a netlist may use the cell, and it has the kind.
#[tactic(auto, using(crate::proofs::KindLemmas::kind_told, crate::proofs::KindLemmas::kind_said))]
fn is_cell_of(cell: &Cell, kind: Kind) -> bool
    requires formed { IsFormed cell.now }
    requires connectors { PinsAreConnectors cell.now }
    ensures { IsTrue result ↔ (IsUsable cell.now × HasKind cell.now kind) }
{
    usable(cell) && kind_of(cell) == Some(kind)
}

/// Whether a usable cell of a list has the kind.
#[tactic(auto, using(crate::proofs::KindLemmas::found, crate::proofs::KindLemmas::not_found))]
fn has_cell_of(cells: &[Cell], kind: Kind) -> bool
    requires formed { All IsFormed cells.now }
    requires connectors { All PinsAreConnectors cells.now }
    ensures { IsTrue result ↔ HasCellOf cells.now kind }
{
    for cell in cells {
        if is_cell_of(cell, kind) {
            return true;
        }
    }
    false
}

/// The first of the kinds Inv, Nand2, Zero and One, and with `registers` then Dff, that no usable cell of a list has. Takes no
/// memory.
pub fn first_missing(cells: &[Cell], registers: bool) -> Option<Kind>
    requires formed { All IsFormed cells.now }
    requires connectors { All PinsAreConnectors cells.now }
    ensures missing { IfSome result (λ k. IsFirstMissing cells.now k (needed registers)) }
    ensures none { IfNone result ((k : Kind) → In k (needed registers) → HasCellOf cells.now k) }
{
    if !has_cell_of(cells, Kind::Inv) {
        return Some(Kind::Inv);
    }
    if !has_cell_of(cells, Kind::Nand2) {
        return Some(Kind::Nand2);
    }
    if !has_cell_of(cells, Kind::Zero) {
        return Some(Kind::Zero);
    }
    if !has_cell_of(cells, Kind::One) {
        return Some(Kind::One);
    }
    if registers && !has_cell_of(cells, Kind::Dff) {
        return Some(Kind::Dff);
    }
    None
}
