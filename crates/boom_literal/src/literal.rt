// What stands for a function in a machine that is made anew.
ghost use Rattle.std.specs.Prelude.{◌≡◌, IfOk, length};
ghost use Rattle.bool_expr.specs.Expression.{IsOver};
ghost use Rattle.bool_expr.specs.View.{view};
ghost use Rattle.boom_literal.specs.Literals.{literal_expression, said};

use bool_expr::{Expr, renumbered, size};
use std::alloc::{AllocError, Global};

/// A constant, or one of the names, by its number.
#[derive(Clone, Copy, PartialEq, Eq, Hash)]
pub enum Literal {
    Constant(bool),
    Name(u32),
}

impl Literal {
    /// The expression that says it. Its size is 0.
    pub fn expr(self) -> Expr
        ensures { view result ≡ literal_expression self }
    {
        match self {
            Literal::Constant(bit) => Expr::Const(bit),
            Literal::Name(k) => Expr::Var(k),
        }
    }
}

/// What is said in place of an expression: the literal, where the expression weighs something, and else the expression itself, over
/// the numbers that the names have now. Without a literal it is kept.
pub fn said(
    alloc: Global,
    given: &Expr,
    literal: Option<Literal>,
    numbers: &[u32],
) -> Result<Expr, AllocError>
    requires { IsOver (view given.now) (length numbers.now) }
    ensures { IfOk result (λ made. view made ≡ said numbers.now literal (view given.now)) }
{
    if let Some(literal) = literal {
        if size(given) > 0 {
            return Ok(literal.expr());
        }
    }
    renumbered(alloc, given, numbers)
}
