// Whether expressions read only what stands before them.
ghost use Rattle.std.specs.Prelude.{◌≡◌, ◌+◌, ◌^◌, ◌<◌, true, map, length};
ghost use Rattle.std.specs.List.{All};
ghost use Rattle.bool_expr.specs.Expression.{IsOver};
ghost use Rattle.bool_expr.specs.View.{view};
ghost use Rattle.machine_core.specs.Order.{EachReadsBelow};
ghost use Rattle.machine_core.specs.View.{equation_view};

use bool_expr::Expr;
use machine_core::{Equation, Register};

// Whether each variable of an expression is below a number. Takes no memory.
fn is_over(e: &Expr, n: u32) -> bool
    ensures { result ≡ true → IsOver (view e.now) n }
{
    let mut rest = e;
    loop {
        match rest {
            Expr::Const(_) => return true,
            Expr::Var(k) => return *k < n,
            Expr::Not(inner) => rest = inner,
            Expr::Pair(_, left, right) => {
                if !is_over(right, n) {
                    return false;
                }
                rest = left;
            }
            Expr::Choice(condition, first, second) => {
                if !is_over(condition, n) || !is_over(first, n) {
                    return false;
                }
                rest = second;
            }
        }
    }
}

/// Whether each of the equations reads only names before its own, the first of which has this number. Takes no memory.
pub(crate) fn reads_below(equations: &[Equation], first: u32) -> bool
    requires { first + length equations.now < 2 ^ 32 }
    ensures { result ≡ true → EachReadsBelow first (map equation_view equations.now) }
{
    for (k, equation) in equations.iter().enumerate() {
        if !is_over(&equation.expr, first + k as u32) {
            return false;
        }
    }
    true
}

/// Whether what registers load reads only so many names. Takes no memory.
pub(crate) fn loads_below(registers: &[Register], total: u32) -> bool
    ensures { result ≡ true → All (λ r. IsOver (view r.next) total × IsOver (view r.enable) total) registers.now }
{
    for register in registers {
        if !is_over(&register.next, total) || !is_over(&register.enable, total) {
            return false;
        }
    }
    true
}
