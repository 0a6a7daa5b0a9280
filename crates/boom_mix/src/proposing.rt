// The proposal that a choice of roots makes.

use crate::choosing::{Place, RootChoice};
use bool_expr::{Expr, support};
use boom_check::Proposal;
use boom_literal::Literal;
use boom_muxes::{Mux, Plan};
use machine_core::Machine;
use std::alloc::{AllocError, Global};

// Marks the equations whose names an expression reads.
fn mark_read(alloc: Global, marks: &mut [bool], held: usize, e: &Expr) -> Result<(), AllocError> {
    let names = support(alloc, e)?;
    for k in names.as_slice() {
        if let Some(place) = (*k as usize).checked_sub(held) {
            mark(marks, place);
        }
    }
    Ok(())
}

fn mark(marks: &mut [bool], place: usize) {
    if let Some(mark) = marks.get_mut(place) {
        *mark = true;
    }
}

fn is_marked(marks: &[bool], place: usize) -> bool {
    marks.get(place).copied().unwrap_or(false)
}

// What the roots are that get their diagram's choices: equations, and what registers load.
#[derive(Drop)]
struct Made {
    equations: Vec<bool>,
    loads: Vec<bool>,
}

fn made_roots(alloc: Global, m: &Machine, roots: &[RootChoice]) -> Result<Made, AllocError> {
    let equations = m.equations().as_slice().len();
    let registers = m.registers().as_slice().len();
    let mut made = Made {
        equations: vec![in alloc; false; equations]?,
        loads: vec![in alloc; false; registers.saturating_mul(2)]?,
    };
    for root in roots {
        if root.is_made {
            match root.place {
                Place::Equation(k) => mark(&mut made.equations, k),
                Place::Load(k) => mark(&mut made.loads, k),
            }
        }
    }
    Ok(made)
}

// The equations that are kept: those of roots that keep theirs, and what these read.
fn kept_equations(
    alloc: Global,
    m: &Machine,
    roots: &[RootChoice],
    made: &Made,
) -> Result<Vec<bool>, AllocError> {
    let equations = m.equations().as_slice();
    let held = m.vars().as_slice().len().saturating_sub(equations.len());
    let mut kept = vec![in alloc; false; equations.len()]?;
    for root in roots {
        if let Place::Equation(k) = root.place {
            if !root.is_made {
                mark(&mut kept, k);
            }
        }
    }
    for (k, register) in m.registers().as_slice().iter().enumerate() {
        let next = k.saturating_mul(2);
        if !is_marked(&made.loads, next) {
            mark_read(alloc, &mut kept, held, &register.next)?;
        }
        if !is_marked(&made.loads, next.saturating_add(1)) {
            mark_read(alloc, &mut kept, held, &register.enable)?;
        }
    }
    for (k, equation) in equations.iter().enumerate().rev() {
        if is_marked(&kept, k) && !is_marked(&made.equations, k) {
            mark_read(alloc, &mut kept, held, &equation.expr)?;
        }
    }
    Ok(kept)
}

// The literals of equations that aren't kept: 0 where the plan has none.
fn equation_literals(
    alloc: Global,
    plan: &Plan,
    kept: &[bool],
    made: &Made,
) -> Result<Vec<Option<Literal>>, AllocError> {
    let mut literals = Vec::new(alloc);
    for (k, is_kept) in kept.iter().enumerate() {
        let literal = match plan.equations.get(k).copied() {
            _ if *is_kept && !is_marked(&made.equations, k) => None,
            Some(Some(literal)) => Some(literal),
            _ => Some(Literal::Constant(false)),
        };
        literals.push(literal)?;
    }
    Ok(literals)
}

// The literals of what registers load and don't keep.
fn load_literals(
    alloc: Global,
    plan: &Plan,
    made: &Made,
) -> Result<Vec<Option<Literal>>, AllocError> {
    let mut literals = Vec::new(alloc);
    for (k, is_made) in made.loads.iter().enumerate() {
        let literal = plan.loads.get(k).copied();
        literals.push(if *is_made { literal } else { None })?;
    }
    Ok(literals)
}

// Marks the choice of a literal.
fn mark_literal(marks: &mut [bool], held: usize, literal: Literal) {
    if let Literal::Name(k) = literal {
        if let Some(place) = (k as usize).checked_sub(held) {
            mark(marks, place);
        }
    }
}

fn mark_literals(marks: &mut [bool], held: usize, literals: &[Option<Literal>]) {
    for literal in literals {
        if let Some(literal) = *literal {
            mark_literal(marks, held, literal);
        }
    }
}

// The choices that literals need.
fn used_muxes(
    alloc: Global,
    held: usize,
    muxes: &[Mux],
    equations: &[Option<Literal>],
    loads: &[Option<Literal>],
) -> Result<Vec<bool>, AllocError> {
    let mut used = vec![in alloc; false; muxes.len()]?;
    mark_literals(&mut used, held, equations);
    mark_literals(&mut used, held, loads);
    for (k, mux) in muxes.iter().enumerate().rev() {
        if is_marked(&used, k) {
            mark_literal(&mut used, held, mux.low);
            mark_literal(&mut used, held, mux.high);
        }
    }
    Ok(used)
}

// The numbers that choices have where only those are there that are used.
fn dense_numbers(alloc: Global, held: usize, used: &[bool]) -> Result<Vec<u32>, AllocError> {
    let mut numbers = Vec::new(alloc);
    let mut next = u32::try_from(held).unwrap_or(0);
    for is_used in used {
        numbers.push(next)?;
        if *is_used {
            next = next.saturating_add(1);
        }
    }
    Ok(numbers)
}

// The literal by the numbers of the choices.
fn renumbered(numbers: &[u32], held: usize, literal: Literal) -> Literal {
    match literal {
        Literal::Constant(bit) => Literal::Constant(bit),
        Literal::Name(k) => match (k as usize).checked_sub(held) {
            None => Literal::Name(k),
            Some(place) => Literal::Name(numbers.get(place).copied().unwrap_or(0)),
        },
    }
}

// What new inner signals say.
fn inner(
    alloc: Global,
    held: usize,
    muxes: &[Mux],
    used: &[bool],
    numbers: &[u32],
) -> Result<Vec<Expr>, AllocError> {
    let mut inner = Vec::new(alloc);
    for (k, mux) in muxes.iter().enumerate() {
        if !is_marked(used, k) {
            continue;
        }
        let mux = Mux {
            select: mux.select,
            low: renumbered(numbers, held, mux.low),
            high: renumbered(numbers, held, mux.high),
        };
        inner.push(mux.expr(alloc)?)?;
    }
    Ok(inner)
}

// The expressions of literals.
fn expressions(
    alloc: Global,
    held: usize,
    numbers: &[u32],
    literals: &[Option<Literal>],
) -> Result<Vec<Option<Expr>>, AllocError> {
    let mut expressions = Vec::new(alloc);
    for literal in literals {
        let expression = match *literal {
            None => None,
            Some(literal) => Some(renumbered(numbers, held, literal).expr()),
        };
        expressions.push(expression)?;
    }
    Ok(expressions)
}

/// What a machine could say where these roots get their diagram's choices and the others keep their equations. Takes memory for it.
pub(crate) fn proposal_of(
    alloc: Global,
    m: &Machine,
    muxes: &[Mux],
    plan: &Plan,
    roots: &[RootChoice],
) -> Result<Proposal, AllocError> {
    let equations = m.equations().as_slice();
    let held = m.vars().as_slice().len().saturating_sub(equations.len());
    let made = made_roots(alloc, m, roots)?;
    let kept = kept_equations(alloc, m, roots, &made)?;
    let equations = equation_literals(alloc, plan, &kept, &made)?;
    let loads = load_literals(alloc, plan, &made)?;
    let used = used_muxes(alloc, held, muxes, &equations, &loads)?;
    let numbers = dense_numbers(alloc, held, &used)?;
    Ok(Proposal {
        inner: inner(alloc, held, muxes, &used, &numbers)?,
        equations: expressions(alloc, held, &numbers, &equations)?,
        loads: expressions(alloc, held, &numbers, &loads)?,
    })
}
