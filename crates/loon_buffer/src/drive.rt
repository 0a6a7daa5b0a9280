// Whether a cell can stand for another.
ghost use Rattle.std.specs.Prelude.{◌≡◌, ◌↔◌, ◌≤◌, map, IsTrue};
ghost use Rattle.bool_expr.specs.Expression.{IsOver};
ghost use Rattle.bool_expr.specs.View.{view};
ghost use Rattle.cell_model.specs.Library.{IsUsable};
ghost use Rattle.cell_model.specs.Cell.{gate};
ghost use Rattle.cell_model.specs.View.{function_view};
ghost use Rattle.net_theory.specs.Exchanges.{IsSameFunction, IsDrive};
ghost use Rattle.loon_buffer.specs.Drives.{HaveSameValues, IsNarrow};

use bool_expr::{Expr, value_at};
use cell_model::{Cell, Function, Pin};
use vlsi_base::{Name, Port};

/// The most inputs of a gate.
const MOST_INPUTS: usize = 6;

/// Whether two expressions have one value on all vectors with these bits from the place `known` on.
fn same_values(e: &Expr, x: &Expr, bits: [bool; MOST_INPUTS], known: usize) -> bool
    requires one { IsOver (view e.now) 6 }
    requires other { IsOver (view x.now) 6 }
    requires within { known ≤ 6 }
    ensures { IsTrue result ↔ HaveSameValues (view e.now) (view x.now) bits known }
{
    if known == 0 {
        return value_at(e, &bits) == value_at(x, &bits);
    }
    let next = known - 1;
    let mut low = bits;
    low[next] = false;
    if !same_values(e, x, low, next) {
        return false;
    }
    let mut high = bits;
    high[next] = true;
    same_values(e, x, high, next)
}

/// Whether two gates compute one function: on all vectors.
fn same_gates(e: &Expr, x: &Expr) -> bool
    requires one { IsNarrow (gate (view e.now)) }
    requires other { IsNarrow (gate (view x.now)) }
    ensures { IsTrue result ↔ IsSameFunction (gate (view e.now)) (gate (view x.now)) }
{
    same_values(e, x, [false; MOST_INPUTS], MOST_INPUTS)
}

/// Whether two flip-flops have the same data and clock pins.
fn same_clocked(data: &Name, clock: &Name, other_data: &Name, other_clock: &Name) -> bool
    ensures { IsTrue result ↔ ((other_data.now ≡ data.now) × (other_clock.now ≡ clock.now)) }
{
    other_data.is_same(data) && other_clock.is_same(clock)
}

/// Whether two functions are the same: those of gates on all vectors, those of flip-flops by their pins.
fn same_functions(one: &Function, other: &Function) -> bool
    requires one { IsNarrow (function_view one.now) }
    requires other { IsNarrow (function_view other.now) }
    ensures { IsTrue result ↔ IsSameFunction (function_view one.now) (function_view other.now) }
{
    match one {
        Function::Gate(e) => match other {
            Function::Gate(x) => same_gates(e, x),
            Function::FlipFlop { .. } => false,
            Function::Other(_) => false,
            Function::Opaque => false,
        },
        Function::FlipFlop { data, clock } => match other {
            Function::Gate(_) => false,
            Function::FlipFlop {
                data: other_data,
                clock: other_clock,
            } => same_clocked(data, clock, other_data, other_clock),
            Function::Other(_) => false,
            Function::Opaque => false,
        },
        Function::Other(_) => false,
        Function::Opaque => false,
    }
}

fn same_port(one: &Port, other: &Port) -> bool
    ensures { IsTrue result ↔ (other.now ≡ one.now) }
{
    other.dir == one.dir && other.name.is_same(&one.name)
}

/// Whether two lists of pins have the same names and directions in the same order.
fn same_pins(one: &[Pin], other: &[Pin]) -> bool
    ensures { IsTrue result ↔ (map (λ p. p.port) other.now ≡ map (λ p. p.port) one.now) }
{
    if one.len() != other.len() {
        return false;
    }
    for k in 0..one.len() {
        if !same_port(&one[k].port, &other[k].port) {
            return false;
        }
    }
    true
}

/// Whether a usable cell can stand for another: it has the same pins, directions and function. Takes no memory.
pub fn is_drive(cell: &Cell, other: &Cell) -> bool
    requires cell { IsUsable cell.now }
    requires other { IsUsable other.now }
    ensures { IsTrue result ↔ IsDrive cell.now other.now }
{
    same_pins(cell.pins.as_slice(), other.pins.as_slice())
        && same_functions(cell.function.as_enum(), other.function.as_enum())
}
