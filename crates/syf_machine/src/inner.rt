// What stands inside of a machine: whether it is in each state, and the signals of its statements.
ghost use Rattle.std.specs.Prelude.{◌≡◌, ◌<◌, ◌≤◌, ◌^◌, ◌+◌, length, map, IfOk};
ghost use Rattle.bool_expr.specs.View.{view};
ghost use Rattle.fsm_machine.specs.Codes.{AreCodes};
ghost use Rattle.fsm_machine.specs.Signals.{signals};
ghost use Rattle.fsm_machine.specs.Sound.{IsSound};
ghost use Rattle.fsm_machine.specs.MachineOf.{up, literal, matches_after, matches, at_state};
ghost use Rattle.fsm_code.specs.Over.{IsBodyOver, numbered_body};
ghost use Rattle.fsm_code.specs.View.{body_view};
ghost use Rattle.syf_machine.specs.Pieces.{inner_from};

use bool_expr::{Expr, Gate};
use fsm_code::{Codes, Place, StateSignals, Statements};
use std::alloc::{AllocError, Global};

// A variable, or its `not`: 1 where the variable is this bit.
fn literal(alloc: Global, bit: bool, variable: u32) -> Result<Expr, AllocError>
    ensures { IfOk result (λ made. view made ≡ literal bit variable) }
{
    if bit {
        return Ok(Expr::Var(variable));
    }
    Ok(Expr::Not(Box::new(alloc, Expr::Var(variable))?))
}

// 1 exactly where the variables from this one on have these bits.
fn matches(alloc: Global, first: u32, code: &[bool]) -> Result<Expr, AllocError>
    requires { first + length code.now < 2 ^ 32 }
    ensures { IfOk result (λ made. view made ≡ matches first code.now) }
{
    let Some((bit, rest)) = code.split_first() else {
        return Ok(Expr::Const(true));
    };
    let mut made = literal(alloc, *bit, first)?;
    let mut variable = first;
    for bit in rest {
        variable += 1;
        let left = Box::new(alloc, made)?;
        let right = Box::new(alloc, literal(alloc, *bit, variable)?)?;
        made = Expr::Pair(Gate::And, left, right);
    }
    Ok(made)
}

// Whether the registers, whose variables are numbered from this one on, hold the code of a state.
fn at_state(alloc: Global, codes: &Codes, first: u32, state: u32) -> Result<Expr, AllocError>
    requires state { state < length codes.now.codes }
    requires room { first + codes.now.width < 2 ^ 32 }
    requires codes { AreCodes (length codes.now.codes) codes.now }
    ensures { IfOk result (λ made. view made ≡ at_state codes.now first state) }
{
    if codes.is_one_hot() {
        return Ok(Expr::Var(first + state));
    }
    let codes = codes.as_slice();
    matches(alloc, first, codes[state as usize].as_slice())
}

// The states by their numbers.
fn all_states(alloc: Global, count: u32) -> Result<Vec<u32>, AllocError>
    ensures { IfOk result (λ states. states.items ≡ up 0 count) }
{
    let mut states = Vec::with_capacity(alloc, count as usize)?;
    for state in 0..count {
        states.push(state)?;
    }
    Ok(states)
}

// For each state whether it is the one that is held.
fn all_at(alloc: Global, codes: &Codes, first: u32, count: u32) -> Result<Vec<Expr>, AllocError>
    requires count { count ≡ length codes.now.codes }
    requires room { first + codes.now.width < 2 ^ 32 }
    requires codes { AreCodes (length codes.now.codes) codes.now }
    ensures { IfOk result (λ made. map view made.items ≡ map (at_state codes.now first) (up 0 count)) }
{
    let mut made = Vec::new(alloc);
    for state in 0..count {
        made.push(at_state(alloc, codes, first, state)?)?;
    }
    Ok(made)
}

/// The expressions inside of a machine whose registers are numbered from `first` on: for each state whether it is the one that is
/// held, and then the signals of the statements. Variable k of the statements stands as `numbers[k]`.
pub(crate) fn inner_expressions(
    alloc: Global,
    codes: &Codes,
    first: u32,
    numbers: &[u32],
    body: &Statements,
) -> Result<Vec<Expr>, AllocError>
    requires codes { AreCodes (length codes.now.codes) codes.now }
    requires over { IsBodyOver (length numbers.now) (body_view body.now) }
    requires room { first + codes.now.width + length codes.now.codes + signals (body_view body.now) < 2 ^ 32 }
    requires sound { IsSound (up 0 (length codes.now.codes)) (body_view body.now) }
    ensures { IfOk result (λ made. map view made.items ≡ inner_from codes.now first (numbered_body numbers.now (body_view body.now))) }
{
    let count = codes.as_slice().len() as u32;
    let mut made = all_at(alloc, codes, first, count)?;
    let base = first + codes.width();
    let signals = StateSignals {
        alloc,
        states: all_states(alloc, count)?,
        first: base,
        numbers,
    };
    let place = Place {
        path: None,
        next: base + count,
    };
    signals.emit(place, body, &mut made)?;
    Ok(made)
}
