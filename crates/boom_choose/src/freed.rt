// Whether an output is left free.
ghost use Rattle.std.specs.Prelude.{◌≡◌, true, false};
ghost use Rattle.bool_expr.specs.View.{view};
ghost use Rattle.machine_free.specs.Free.{AreFreed};

use bool_expr::Expr;

/// Whether some bit is left free in two expressions that differ in free bits alone.
pub fn is_freed(low: &Expr, high: &Expr) -> bool
    requires { AreFreed (view low.now) (view high.now) }
    ensures free { result ≡ true → view high.now ≡ view low.now → ⊥ }
    ensures fixed { result ≡ false → view high.now ≡ view low.now }
{
    match (low, high) {
        (Expr::Const(a), Expr::Const(b)) => *a != *b,
        (Expr::Choice(_, a, b), Expr::Choice(_, c, d)) => is_freed(a, c) || is_freed(b, d),
        _ => false,
    }
}
