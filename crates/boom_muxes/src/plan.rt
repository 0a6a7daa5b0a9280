// What each equation and register says in a machine that is made anew.
ghost use Rattle.std.specs.Prelude.{◌≡◌, ◌+◌, ◌^◌, ◌<◌, [], map, length, None, replicate, IfOk, OnOk};
ghost use Rattle.machine_core.specs.View.{equation_view};
ghost use Rattle.bool_expr.specs.View.{view};
ghost use Rattle.boom_muxes.specs.Planning.{EachLeadsBack, IsFollowed, IsNoted};
ghost use Rattle.machine_roots.specs.Listing.{IsPlaced};

use bool_expr::Expr;
use boom_literal::Literal;
use machine_core::Equation;
use machine_roots::RootExpr;
use std::alloc::{AllocError, Global};

/// The literals of equations, by their numbers, and of what registers load, in their order. An equation has one where a root is its
/// expression, or is a name alone that leads to it.
#[derive(Drop)]
pub struct Plan {
    pub equations: Vec<Option<Literal>>,
    pub loads: Vec<Literal>,
}

// Gives the literal to each equation to which names alone lead from an expression, up to one that has one. The first equation has
// number `held` among the names.
fn follow(
    plan: &mut Vec<Option<Literal>>,
    equations: &[Equation],
    held: usize,
    e: &Expr,
    literal: Literal,
)
    requires count { length plan.old.items ≡ length equations.now }
    requires below { EachLeadsBack held (map equation_view equations.now) (view e.now) }
    ensures { IsFollowed held (map equation_view equations.now) literal (view e.now) plan.old.items plan.new.items }
{
    let mut rest = e;
    while let Expr::Var(k) = rest {
        let place = *k as usize;
        if place < held || plan[place - held].is_some() {
            return;
        }
        plan[place - held] = Some(literal);
        rest = &equations[place - held].expr;
    }
}

impl Plan {
    /// No literals, of so many equations. Takes memory for them.
    pub fn new(alloc: Global, equations: usize) -> Result<Self, AllocError>
        ensures equations { IfOk result (λ p. p.equations.items ≡ replicate equations None) }
        ensures loads { IfOk result (λ p. p.loads.items ≡ []) }
    {
        Ok(Plan {
            equations: vec![in alloc; None; equations]?,
            loads: Vec::new(alloc),
        })
    }

    /// Notes the literal of a root. Takes memory for that of a register.
    pub fn note(
        &mut self,
        equations: &[Equation],
        held: usize,
        root: RootExpr,
        literal: Literal,
    ) -> Result<(), AllocError>
        requires count { length self.old.equations.items ≡ length equations.now }
        requires few { held + length equations.now < 2 ^ 32 }
        requires root { IsPlaced (map equation_view equations.now) root }
        requires below { EachLeadsBack held (map equation_view equations.now) (view root.expr.now) }
        ensures { OnOk result (IsNoted held (map equation_view equations.now) root.entry literal self.old self.new) }
    {
        match root.equation {
            Some(k) => {
                let name = Expr::Var((held + k) as u32);
                follow(&mut self.equations, equations, held, &name, literal);
            }
            None => {
                self.loads.push(literal)?;
                follow(&mut self.equations, equations, held, root.expr, literal);
            }
        }
        Ok(())
    }
}
