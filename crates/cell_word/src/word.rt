// The words of gates.
ghost use Rattle.std.specs.Prelude.{◌≡◌, IfSome, IfNone};
ghost use Rattle.bool_expr.specs.Expression.{Expression};
ghost use Rattle.cell_model.specs.Function.{gate};
ghost use Rattle.cell_model.specs.Usable.{IsFormed};
ghost use Rattle.cell_word.specs.Words.{input_count, IsWordOf};

use cell_model::{Cell, Function, Pin};
use expr_word::word_of_expr;
use truth_tab::Truth;
use vlsi_base::Dir;

fn count_inputs(pins: &[Pin]) -> usize
    ensures { result ≡ input_count pins.now }
{
    pins.iter().filter(|pin| pin.port.dir == Dir::In).count()
}

/// The word of a gate: its function over its inputs in the order of names. None where the cell's function isn't a gate. Takes no
/// memory.
pub fn word_of(cell: &Cell) -> Option<Truth<6>>
    requires { IsFormed cell.now }
    ensures word { IfSome result (λ word. IsWordOf cell.now word.word) }
    ensures none { IfNone result ((e : Expression) → cell.now.function ≡ gate e → ⊥) }
{
    match cell.function.as_enum() {
        Function::Gate(e) => Some(word_of_expr(e, count_inputs(cell.pins.as_slice()))),
        Function::FlipFlop { .. } => None,
        Function::Other(_) => None,
        Function::Opaque => None,
    }
}
