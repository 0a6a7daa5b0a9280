// Paths, and where statements stand.
ghost use Rattle.std.specs.Prelude.{◌≡◌, ◌<◌, ◌+◌, ◌^◌, Some, IfOk};
ghost use Rattle.fsm_code.specs.Fits.{Fits};
ghost use Rattle.bool_expr.specs.View.{view};
ghost use Rattle.fsm_machine.specs.Signals.{along, any_of, or_after};

use bool_expr::{Expr, Gate};
use std::alloc::{AllocError, Global};

/// Where statements stand: the number of their path, or none where it is 1, and the number of their first signal.
#[derive(Clone, Copy)]
pub struct Place {
    pub path: Option<u32>,
    pub next: u32,
}

impl Place {
    /// The statements whose path has this number, with their signals behind it.
    pub fn new(path: u32) -> Self
        requires { path + 1 < 2 ^ 32 }
        ensures path { result.path ≡ Some path }
        ensures next { result.next ≡ path + 1 }
    {
        Place {
            path: Some(path),
            next: path + 1,
        }
    }
}

/// The path and x: x itself where the path is 1.
pub fn along(alloc: Global, path: Option<u32>, x: Expr) -> Result<Expr, AllocError>
    ensures { IfOk result (λ made. view made ≡ along path (view x)) }
{
    match path {
        None => Ok(x),
        Some(p) => {
            let left = Box::new(alloc, Expr::Var(p))?;
            let right = Box::new(alloc, x)?;
            Ok(Expr::Pair(Gate::And, left, right))
        }
    }
}

// The `or` of an expression and of the variables of these states.
fn or_after(alloc: Global, first: Expr, at: u32, states: &[u32]) -> Result<Expr, AllocError>
    requires { Fits at states.now }
    ensures { IfOk result (λ made. view made ≡ or_after (λ s. at + s) (view first) states.now) }
{
    let mut made = first;
    for s in states {
        let left = Box::new(alloc, made)?;
        let right = Box::new(alloc, Expr::Var(at + *s))?;
        made = Expr::Pair(Gate::Or, left, right);
    }
    Ok(made)
}

/// The `or` of the variables of these states, and 0 where there are none.
pub fn any_of(alloc: Global, at: u32, states: &[u32]) -> Result<Expr, AllocError>
    requires { Fits at states.now }
    ensures { IfOk result (λ made. view made ≡ any_of (λ s. at + s) states.now) }
{
    match states {
        [] => Ok(Expr::Const(false)),
        [s, rest @ ..] => or_after(alloc, Expr::Var(at + *s), at, rest),
    }
}
