// The valuation of a machine under an input vector, and the expression that has an output's value under each.
ghost use Rattle.std.specs.Prelude.{◌≡◌, ◌++◌, ◌∷◌, [], ◌+◌, ◌≤◌, ◌<◌, ℕ, List, Bool, true, false, length, map, if◌then◌else◌, IfOk, OnOk, IfSome, IsTrue};
ghost use Rattle.bool_expr.specs.Expression.{bit, constant, val, IsOver};
ghost use Rattle.bool_expr.specs.View.{view};
ghost use Rattle.machine_core.specs.Built.{built};
ghost use Rattle.machine_core.specs.Order.{EachReadsBelow};
ghost use Rattle.machine_core.specs.View.{equation_view};
ghost use Rattle.machine_core.specs.Cycles.{Settles};
ghost use Rattle.machine_core.specs.Machine.{inputs as input_names};
ghost use Rattle.cell_function.specs.Function.{most_inputs};
ghost use Rattle.cell_function.specs.Row.{row, HasRows};

use crate::shape::value_at;
use bool_expr::{Bits, Expr, value};
use machine_core::{Equation, Machine, built_settles};
use std::alloc::{AllocError, Global};
use vlsi_base::Name;

// Each equation in turn adds its value.
fn add_values(w: &mut Bits, equations: &[Equation]) -> Result<(), AllocError>
    requires { EachReadsBelow (length w.old) (map equation_view equations.now) }
    ensures { OnOk result (w.new ≡ built w.old (map equation_view equations.now)) }
{
    for equation in equations {
        let bit = value(&equation.expr, w);
        w.push(bit)?;
    }
    Ok(())
}

fn beginning(alloc: Global, inputs: &[bool], contents: &[bool]) -> Result<Bits, AllocError>
    ensures { IfOk result (λ w. w ≡ inputs.now ++ contents.now) }
{
    let mut bits = Vec::new(alloc);
    bits.extend_from_slice(inputs)?;
    bits.extend_from_slice(contents)?;
    Ok(Bits::new(bits))
}

/// The valuation of the machine's names under an input vector, from the contents of its registers. It takes memory for one bit
/// of each name.
pub(crate) fn settle(
    alloc: Global,
    machine: &Machine,
    inputs: &[bool],
    contents: &[bool],
) -> Result<Bits, AllocError>
    requires inputs { length inputs.now ≡ length (input_names machine.now) }
    requires contents { length contents.now ≡ length machine.now.registers }
    ensures built { IfOk result (λ w. w ≡ built (inputs.now ++ contents.now) machine.now.equations) }
    ensures settles { IfOk result (λ w. Settles machine.now contents.now inputs.now w) }
{
    built_settles();
    let mut w = beginning(alloc, inputs, contents)?;
    add_values(&mut w, machine.equations().as_slice())?;
    Ok(w)
}

/// The output's value under an input vector.
fn output_bit(
    alloc: Global,
    machine: &Machine,
    output: &Name,
    inputs: &[bool],
) -> Result<bool, AllocError>
    requires inputs { length inputs.now ≡ length (input_names machine.now) }
    requires stateless { machine.now.registers ≡ [] }
    ensures { IfOk result (λ b. b ≡ row machine.now output.now inputs.now) }
{
    let w = settle(alloc, machine, inputs, &[])?;
    Ok(value_at(machine.vars().as_slice(), w.as_slice(), output))
}

fn with_bit(alloc: Global, bits: &[bool], bit: bool) -> Result<Vec<bool>, AllocError>
    ensures { IfOk result (λ made. made.items ≡ bits.now ++ bit ∷ []) }
{
    let mut made = Vec::new(alloc);
    made.extend_from_slice(bits)?;
    made.push(bit)?;
    Ok(made)
}

fn constant(e: &Expr) -> Option<bool>
    ensures { IfSome result (λ b. view e.now ≡ constant b) }
{
    match e {
        Expr::Const(bit) => Some(*bit),
        _ => None,
    }
}

/// Whether two expressions are spelled alike. Of pairs, which no table gives, this isn't asked.
fn is_same(a: &Expr, b: &Expr) -> bool
    ensures { IsTrue result → view a.now ≡ view b.now }
{
    match a {
        Expr::Const(bit) => match b {
            Expr::Const(other) => bit == other,
            _ => false,
        },
        Expr::Var(k) => match b {
            Expr::Var(other) => k == other,
            _ => false,
        },
        Expr::Not(inner) => match b {
            Expr::Not(other) => is_same(inner, other),
            _ => false,
        },
        Expr::Choice(condition, high, low) => match b {
            Expr::Choice(other, first, second) => {
                is_same(condition, other) && is_same(high, first) && is_same(low, second)
            }
            _ => false,
        },
        Expr::Pair(_, _, _) => false,
    }
}

/// What has the first value where a variable is 1, and the second elsewhere. Halves that are alike
/// are one, and constants that differ are the variable or its inverse.
fn chosen(alloc: Global, variable: u32, high: Expr, low: Expr) -> Result<Expr, AllocError>
    ensures value { IfOk result (λ e. (w : List Bool) → val (view e) w ≡ (if bit w variable then val (view high) w else val (view low) w)) }
    ensures over { IfOk result (λ e. (n : ℕ) → variable < n → IsOver (view high) n → IsOver (view low) n → IsOver (view e) n) }
{
    if is_same(&high, &low) {
        return Ok(high);
    }
    match (constant(&high), constant(&low)) {
        (Some(true), Some(false)) => Ok(Expr::Var(variable)),
        (Some(false), Some(true)) => {
            let inner = Box::new(alloc, Expr::Var(variable))?;
            Ok(Expr::Not(inner))
        }
        _ => {
            let condition = Box::new(alloc, Expr::Var(variable))?;
            let high = Box::new(alloc, high)?;
            let low = Box::new(alloc, low)?;
            Ok(Expr::Choice(condition, high, low))
        }
    }
}

/// The expression of the output's value where the first inputs have these bits and `left` are left, over as many variables as
/// there are inputs. The table of all vectors is split at one variable after another. At most 6 inputs: it takes memory for
/// 64 valuations, one after another, and for at most 63 choices.
#[cycle(table)]
pub(crate) fn split(
    alloc: Global,
    machine: &Machine,
    output: &Name,
    front: &[bool],
    left: usize,
) -> Result<Expr, AllocError>
    requires inputs { length front.now + left ≡ length (input_names machine.now) }
    requires few { length (input_names machine.now) ≤ most_inputs }
    requires stateless { machine.now.registers ≡ [] }
    ensures rows { IfOk result (λ e. HasRows (row machine.now output.now) front.now left (view e)) }
    ensures over { IfOk result (λ e. IsOver (view e) (length (input_names machine.now))) }
{
    if left == 0 {
        let bit = output_bit(alloc, machine, output, front)?;
        return Ok(Expr::Const(bit));
    }
    let (high, low) = halves(alloc, machine, output, front, left - 1)?;
    chosen(alloc, front.len() as u32, high, low)
}

/// The same where the next input is 1, and where it is 0.
#[cycle(table)]
fn halves(
    alloc: Global,
    machine: &Machine,
    output: &Name,
    front: &[bool],
    left: usize,
) -> Result<(Expr, Expr), AllocError>
    requires inputs { length front.now + left + 1 ≡ length (input_names machine.now) }
    requires few { length (input_names machine.now) ≤ most_inputs }
    requires stateless { machine.now.registers ≡ [] }
    ensures high { IfOk result (λ made. HasRows (row machine.now output.now) (front.now ++ true ∷ []) left (view made.0)) }
    ensures low { IfOk result (λ made. HasRows (row machine.now output.now) (front.now ++ false ∷ []) left (view made.1)) }
    ensures high_over { IfOk result (λ made. IsOver (view made.0) (length (input_names machine.now))) }
    ensures low_over { IfOk result (λ made. IsOver (view made.1) (length (input_names machine.now))) }
{
    let one = with_bit(alloc, front, true)?;
    let high = split(alloc, machine, output, &one, left)?;
    let zero = with_bit(alloc, front, false)?;
    let low = split(alloc, machine, output, &zero, left)?;
    Ok((high, low))
}
