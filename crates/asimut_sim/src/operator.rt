// Operators over bits that have places in an array.
ghost use Rattle.std.specs.Prelude.{◌≡◌, ℕ, ◌<◌, ◌≤◌, Bool, true, false, List};
ghost use Rattle.bool_expr.specs.Expression.{bit as bit_at, gate_value};
ghost use Rattle.asimut_sim.specs.Operator.{chosen, ReadsBelow, HasConstants, step_value, StepBelow};

use bool_expr::Gate;

/// The place of a bit that is always 0.
const ZERO: usize = 0;

/// The place of a bit that is always 1.
const ONE: usize = 1;

/// A multiplexer: the first bit where the condition is 1, and the second elsewhere, each perhaps inverted. Its three bits go
/// by their places.
#[derive(Clone, Copy)]
pub(crate) struct Operator {
    pub(crate) condition: usize,
    pub(crate) first: usize,
    pub(crate) second: usize,
    pub(crate) inverts_first: bool,
    pub(crate) inverts_second: bool,
}

/// An operator of an expression whose first operand, or whose last one for a choice, is still to come. The others go by
/// their places.
#[derive(Clone, Copy)]
pub(crate) enum Step {
    Not,
    Pair(Gate, usize),
    Choice(usize, usize),
}

fn choose(condition: usize, first: (usize, bool), second: (usize, bool)) -> Operator
    ensures { result ≡ record { condition = condition; first = first.0; second = second.0; inverts_first = first.1; inverts_second = second.1 } }
{
    Operator {
        condition,
        first: first.0,
        second: second.0,
        inverts_first: first.1,
        inverts_second: second.1,
    }
}

fn pair(gate: Gate, left: usize, right: usize) -> Operator
    ensures value { (a : List Bool) → HasConstants a → chosen a result ≡ gate_value gate (bit_at a left) (bit_at a right) }
    ensures reads { (n : ℕ) → 2 ≤ n → left < n → right < n → ReadsBelow n result }
{
    match gate {
        Gate::And => choose(left, (right, false), (ZERO, false)),
        Gate::Or => choose(left, (ONE, false), (right, false)),
        Gate::Nand => choose(left, (right, true), (ONE, false)),
        Gate::Nor => choose(left, (ZERO, false), (right, true)),
        Gate::Xor => choose(left, (right, true), (right, false)),
        Gate::Xnor => choose(left, (right, false), (right, true)),
    }
}

/// The step's operator over the operand that it lacks.
pub(crate) fn step_operator(step: Step, inner: usize) -> Operator
    ensures value { (a : List Bool) → HasConstants a → chosen a result ≡ step_value a step (bit_at a inner) }
    ensures reads { (n : ℕ) → 2 ≤ n → StepBelow n step → inner < n → ReadsBelow n result }
{
    match step {
        Step::Not => choose(inner, (ZERO, false), (ONE, false)),
        Step::Pair(gate, other) => pair(gate, inner, other),
        Step::Choice(condition, first) => choose(condition, (first, false), (inner, false)),
    }
}

/// The place of a constant.
pub(crate) fn constant_place(bit: bool) -> usize
    ensures value { (a : List Bool) → HasConstants a → bit_at a result ≡ bit }
    ensures before { result < 2 }
{
    if bit { ONE } else { ZERO }
}
