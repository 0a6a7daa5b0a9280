// Values, sizes, variables and copies, worked out by hand, and chains that are far deeper than a stack of frames.
ghost use Rattle.std.specs.Prelude.{◌≡◌, length, IfOk};
ghost use Rattle.bool_expr.specs.Expression.{IsOver, inverse as inverse_of, pair as pair_of, choice as choice_of};
ghost use Rattle.bool_expr.specs.View.{view};

use bool_expr::{Bits, Expr, Gate, copy, renumbered, size, support, value};
use std::alloc::{AllocError, Global};
use std::test::Fail;

fn not(alloc: Global, inner: Expr) -> Result<Expr, AllocError>
    ensures { IfOk result (λ made. view made ≡ inverse_of (view inner)) }
{
    Ok(Expr::Not(Box::new(alloc, inner)?))
}

fn pair(alloc: Global, gate: Gate, left: Expr, right: Expr) -> Result<Expr, AllocError>
    ensures { IfOk result (λ made. view made ≡ pair_of gate (view left) (view right)) }
{
    let left = Box::new(alloc, left)?;
    Ok(Expr::Pair(gate, left, Box::new(alloc, right)?))
}

fn choice(alloc: Global, condition: Expr, first: Expr, second: Expr) -> Result<Expr, AllocError>
    ensures { IfOk result (λ made. view made ≡ choice_of (view condition) (view first) (view second)) }
{
    let condition = Box::new(alloc, condition)?;
    let first = Box::new(alloc, first)?;
    Ok(Expr::Choice(condition, first, Box::new(alloc, second)?))
}

fn bits(alloc: Global, row: u8) -> Result<Bits, AllocError>
    ensures { IfOk result (λ w. length w ≡ 3) }
{
    Ok(Bits::new(vec![in alloc; row % 2 == 1, row / 2 % 2 == 1, row / 4 % 2 == 1]?))
}

/// The values in the rows from 7 to 0, where variable k is bit k of the row.
fn truth(alloc: Global, e: &Expr) -> Result<u8, AllocError>
    requires { IsOver (view e.now) 3 }
{
    let mut word = 0u8;
    for row in 0..8u8 {
        let w = bits(alloc, 7 - row)?;
        word = word.wrapping_mul(2) | u8::from(value(e, &w));
    }
    Ok(word)
}

#[test]
fn operators(rt: HostRuntime) -> Result<(), Fail> {
    let alloc = rt.alloc();
    for (gate, word, weight) in [
        (Gate::And, 0x88, 2),
        (Gate::Or, 0xee, 3),
        (Gate::Nand, 0x77, 1),
        (Gate::Nor, 0x11, 4),
        (Gate::Xor, 0x66, 4),
        (Gate::Xnor, 0x99, 5),
    ] {
        let e = pair(alloc, gate, Expr::Var(0), Expr::Var(1))?;
        assert_eq!(rt; truth(alloc, &e)?, word);
        assert_eq!(rt; size(&e), weight);
    }
    let e = not(alloc, Expr::Var(2))?;
    assert_eq!(rt; truth(alloc, &e)?, 0x0f);
    assert_eq!(rt; size(&e), 1);
    let e = choice(alloc, Expr::Var(2), Expr::Var(0), Expr::Var(1))?;
    assert_eq!(rt; truth(alloc, &e)?, 0xac);
    assert_eq!(rt; size(&e), 4);
    Ok(())
}

#[test]
fn an_expression_and_its_copy(rt: HostRuntime) -> Result<(), Fail> {
    let alloc = rt.alloc();
    let lower = not(alloc, Expr::Var(1))?;
    let chosen = choice(alloc, Expr::Var(2), Expr::Var(0), lower)?;
    let sum = pair(alloc, Gate::Xor, Expr::Var(2), Expr::Const(true))?;
    let e = pair(alloc, Gate::Nand, sum, chosen)?;
    let made = copy(alloc, &e)?;
    for e in [&e, &made] {
        assert_eq!(rt; size(e), 10);
        let vars = support(alloc, e)?;
        assert_eq!(rt; vars.as_slice(), [2, 0, 1].as_slice());
    }
    Ok(())
}

#[test]
fn an_expression_over_other_variables(rt: HostRuntime) -> Result<(), Fail> {
    let alloc = rt.alloc();
    let sum = pair(alloc, Gate::Xor, Expr::Var(1), Expr::Const(true))?;
    let e = choice(alloc, Expr::Var(2), Expr::Var(0), sum)?;
    let made = renumbered(alloc, &e, &[5, 3, 0])?;
    assert_eq!(rt; size(&made), 8);
    let vars = support(alloc, &made)?;
    assert_eq!(rt; vars.as_slice(), [0, 5, 3].as_slice());
    Ok(())
}

/// A chain of `n` operators: of nots, of ands nested on the left, or of choices nested in their last part.
fn chain(alloc: Global, kind: u8, n: u32) -> Result<Expr, AllocError> {
    let mut e = Expr::Var(0);
    for _ in 0..n {
        e = match kind {
            0 => not(alloc, e)?,
            1 => pair(alloc, Gate::And, e, Expr::Var(0))?,
            _ => choice(alloc, Expr::Var(0), Expr::Var(1), e)?,
        };
    }
    Ok(e)
}

#[test]
fn long_chains(rt: HostRuntime) -> Result<(), Fail> {
    let alloc = rt.alloc();
    for (kind, weight, names) in [(0u8, 65536u64, 1), (1, 131_072, 1), (2, 262_144, 2)] {
        let e = chain(alloc, kind, 65536)?;
        let made = copy(alloc, &e)?;
        assert_eq!(rt; size(&e), weight);
        assert_eq!(rt; size(&made), weight);
        let vars = support(alloc, &made)?;
        assert_eq!(rt; vars.as_slice().len(), names);
    }
    Ok(())
}
