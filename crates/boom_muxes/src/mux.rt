// A node of a diagram, as an expression.
ghost use Rattle.std.specs.Prelude.{◌≡◌, ◌≤◌, true, false, IfOk};
ghost use Rattle.bool_expr.specs.Expression.{inverse as inverse_of, pair as pair_of, choice as choice_of};
ghost use Rattle.bool_expr.specs.View.{view};
ghost use Rattle.boom_muxes.specs.Muxes.{mux_expression, mux_weight, weight_of, chosen};

use bool_expr::{Expr, Gate};
use boom_literal::Literal;
use std::alloc::{AllocError, Global};

/// A choice by an input or register: `high` where it is 1, and `low` where it is 0.
#[derive(Clone, Copy, PartialEq, Eq, Hash)]
pub struct Mux {
    pub select: u32,
    pub low: Literal,
    pub high: Literal,
}

impl Mux {
    /// What its expression weighs: 4, or less where one side is a constant.
    pub fn weight(self) -> u64
        ensures weight { result ≡ mux_weight self }
        ensures most { result ≤ 4 }
    {
        match self.low {
            Literal::Constant(low) => match self.high {
                Literal::Constant(high) => constants_weight(low, high),
                Literal::Name(_) => 2,
            },
            Literal::Name(_) => match self.high {
                Literal::Constant(_) => 3,
                Literal::Name(_) => 4,
            },
        }
    }

    /// The smallest expression that says it. Takes memory for it.
    pub fn expr(self, alloc: Global) -> Result<Expr, AllocError>
        ensures { IfOk result (λ made. view made ≡ mux_expression self) }
    {
        match self.low {
            Literal::Constant(low) => {
                if low {
                    from_one(alloc, self.select, self.high)
                } else {
                    from_zero(alloc, self.select, self.high)
                }
            }
            Literal::Name(low) => from_name(alloc, self.select, low, self.high),
        }
    }
}

// What a choice of two constants weighs.
fn constants_weight(low: bool, high: bool) -> u64
    ensures { result ≡ weight_of (Literal.Constant low) (Literal.Constant high) }
{
    if low == high {
        2
    } else if low {
        1
    } else {
        0
    }
}

// A choice that is 0 where the selecting name is 0.
fn from_zero(alloc: Global, select: u32, high: Literal) -> Result<Expr, AllocError>
    ensures { IfOk result (λ made. view made ≡ chosen select (Literal.Constant false) high) }
{
    if let Literal::Constant(bit) = high {
        if bit {
            return Ok(Expr::Var(select));
        }
    }
    pair(alloc, Gate::And, Expr::Var(select), high.expr())
}

// A choice that is 1 where the selecting name is 0.
fn from_one(alloc: Global, select: u32, high: Literal) -> Result<Expr, AllocError>
    ensures { IfOk result (λ made. view made ≡ chosen select (Literal.Constant true) high) }
{
    if let Literal::Constant(bit) = high {
        if !bit {
            return inverse(alloc, Expr::Var(select));
        }
    }
    let opposite = inverse(alloc, high.expr())?;
    pair(alloc, Gate::Nand, Expr::Var(select), opposite)
}

// A choice that is another name where the selecting one is 0.
fn from_name(alloc: Global, select: u32, low: u32, high: Literal) -> Result<Expr, AllocError>
    ensures { IfOk result (λ made. view made ≡ chosen select (Literal.Name low) high) }
{
    match high {
        Literal::Constant(bit) => {
            if bit {
                pair(alloc, Gate::Or, Expr::Var(select), Expr::Var(low))
            } else {
                let opposite = inverse(alloc, Expr::Var(select))?;
                pair(alloc, Gate::And, opposite, Expr::Var(low))
            }
        }
        Literal::Name(high) => { choice(alloc, Expr::Var(select), Expr::Var(high), Expr::Var(low)) }
    }
}

fn inverse(alloc: Global, e: Expr) -> Result<Expr, AllocError>
    ensures { IfOk result (λ made. view made ≡ inverse_of (view e)) }
{
    Ok(Expr::Not(Box::new(alloc, e)?))
}

fn pair(alloc: Global, gate: Gate, left: Expr, right: Expr) -> Result<Expr, AllocError>
    ensures { IfOk result (λ made. view made ≡ pair_of gate (view left) (view right)) }
{
    let left = Box::new(alloc, left)?;
    let right = Box::new(alloc, right)?;
    Ok(Expr::Pair(gate, left, right))
}

fn choice(alloc: Global, condition: Expr, first: Expr, second: Expr) -> Result<Expr, AllocError>
    ensures { IfOk result (λ made. view made ≡ choice_of (view condition) (view first) (view second)) }
{
    let condition = Box::new(alloc, condition)?;
    let first = Box::new(alloc, first)?;
    let second = Box::new(alloc, second)?;
    Ok(Expr::Choice(condition, first, second))
}
