// What cells compute.
ghost use Rattle.std.specs.Prelude.{◌≡◌};
ghost use Rattle.cell_model.specs.View.{function_view};

use bool_expr::Expr;
use machine_core::Machine;
use std::marker::Model;
use vlsi_base::Name;

/// What a cell computes.
#[derive(Drop)]
pub enum Function {
    /// Its one output has this value, where variable `k` is input pin `k`.
    Gate(Expr),
    /// A plain flip-flop: at the rise of the clock pin it takes the bit of the data pin; its output shows the bit that it
    /// holds.
    FlipFlop { data: Name, clock: Name },
    /// What a machine does whose ports are the pins: a cell with other registers, with several outputs, or with pins that are
    /// bits of vectors.
    Other(Machine),
    /// Nothing is known of it.
    Opaque,
}

/// What a cell computes, as contracts see it.
#[derive(Drop)]
pub struct CellFunction {
    function: Function,
}

impl Model for CellFunction {
    ghost use Rattle.std.specs.Coded.{codes};
    ghost use Rattle.cell_model.specs.Function.{Function};
    ghost use Rattle.machine_core.specs.Code.{expression_code};

    ghost Value = { Function };

    ghost coded = { Prim.hlevel (codes, expression_code (Prim.hlevel codes)) };

    ghost use Rattle.cell_model.specs.View.{function_view};

    ghost view = { λ a. function_view a.function };
}

impl CellFunction {
    /// This function. Takes no memory.
    pub fn new(function: Function) -> Self
        ensures { result ≡ function_view function }
    {
        CellFunction { function }
    }

    /// The function, to be matched. Takes no memory.
    pub fn as_enum(&self) -> &Function
        ensures { function_view result.now ≡ self.now }
    {
        &self.function
    }
}
