ghost use Rattle.std.specs.Prelude.{◌≡◌, ◌++◌, ◌∷◌, [], if◌then◌else◌, IfOk, OnOk};
ghost use Rattle.bool_expr.specs.Expression.{variables};
ghost use Rattle.bool_expr.specs.View.{view};
ghost use Rattle.bool_expr.specs.Support.{first_meetings, among, Knows};

use crate::{Expr, Vars};
use std::alloc::{AllocError, Global};
use std::collections::BTreeSet;

/// Puts a variable behind those that were met, unless it is among them.
fn meet(vars: &mut Vec<u32>, met: &mut BTreeSet<u32>, k: u32) -> Result<(), AllocError>
    requires { Knows met.old vars.old.items }
    ensures knows { OnOk result (Knows met.new vars.new.items) }
    ensures vars { OnOk result (vars.new.items
        ≡ (if among k vars.old.items then vars.old.items else vars.old.items ++ k ∷ [])) }
{
    if met.insert(k)? {
        vars.push(k)?;
    }
    Ok(())
}

/// The variables of an expression, in the order in which a walk from left to right first meets them.
pub fn support(alloc: Global, e: &Expr) -> Result<Vars, AllocError>
    ensures { IfOk result (λ vars. vars ≡ first_meetings (variables (view e.now))) }
{
    let mut vars = Vec::new(alloc);
    let mut met = BTreeSet::new(alloc);
    // What is still to be walked, the next at the end.
    let mut waiting = Vec::new(alloc);
    waiting.push(e)?;
    while let Some(next) = waiting.pop() {
        match next {
            Expr::Const(_) => {}
            Expr::Var(k) => meet(&mut vars, &mut met, *k)?,
            Expr::Not(inner) => waiting.push(inner)?,
            Expr::Pair(_, left, right) => {
                waiting.push(right)?;
                waiting.push(left)?;
            }
            Expr::Choice(condition, first, second) => {
                waiting.push(second)?;
                waiting.push(first)?;
                waiting.push(condition)?;
            }
        }
    }
    Ok(Vars::new(vars))
}
