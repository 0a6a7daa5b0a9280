// The roots of a machine.
ghost use Rattle.std.specs.Prelude.{◌≡◌, ◌++◌, ◌∷◌, [], ◌+◌, ◌-◌, ◌<◌, ◌≤◌, false, Some, slice_get, map, length, not, filter, List, is_some, IfOk, OnOk, IsSomeAnd};
ghost use Rattle.std.specs.List.{All};
ghost use Rattle.std.specs.FinMap.{get};
ghost use Rattle.bool_expr.specs.View.{view};
ghost use Rattle.vlsi_base.specs.declared.name.Name.{Name as NameValue};
ghost use Rattle.machine_core.specs.View.{equation_view, register_view};
ghost use Rattle.machine_core.specs.Machine.{Equation as EquationValue, names_of, is_input};
ghost use Rattle.machine_roots.specs.Roots.{register_roots};
ghost use Rattle.machine_roots.specs.Listing.{root_view, IsPlaced, AreDriven, AreOutputRoots, AreRoots};

use bool_expr::Expr;
use machine_core::{Equation, Machine, Register};
use std::alloc::{AllocError, Global};
use vlsi_base::{Dir, Name, NameIndex, Port};

/// A root, where it stands in its machine.
#[derive(Clone, Copy, Drop)]
pub struct RootExpr<'a> {
    /// The output's name, or the register's.
    pub name: &'a Name,
    pub expr: &'a Expr,
    /// The number of the equation that the expression is of. What a register loads has none.
    pub equation: Option<usize>,
}

// What an output shows: the expression of its equation, which stands in the index behind the names that are held.
fn output_root<'a>(
    index: &NameIndex<'a>,
    held: usize,
    equations: &'a [Equation],
    name: &'a Name,
) -> RootExpr<'a>
    requires { IsSomeAnd (get index.now name.now) (λ j. (held ≤ j) × (j < held + length equations.now)) }
    ensures name { result.name.now ≡ name.now }
    ensures equation { IsSomeAnd (get index.now name.now) (λ j. result.equation ≡ Some (j - held)) }
    ensures expr { IsSomeAnd (get index.now name.now) (λ j. (e : _) × (slice_get equations.now (j - held) ≡ Some e)
        × (view result.expr.now ≡ view e.expr)) }
{
    match index.find(name.text.as_bytes(), name.bit) {
        Some(place) => RootExpr {
            name,
            expr: &equations[place - held].expr,
            equation: Some(place - held),
        },
        None => unreachable!(),
    }
}

fn is_output(port: &Port) -> bool
    ensures { result ≡ not (is_input port.now.dir) }
{
    port.dir == Dir::Out
}

// What the outputs among these ports show. Takes memory for their roots, and while they are looked up for an index of the names.
fn output_roots<'a>(
    alloc: Global,
    names: &'a [Name],
    equations: &'a [Equation],
    ports: &'a [Port],
) -> Result<Vec<RootExpr<'a>>, AllocError>
    requires ends { (held : List NameValue) × (names.now ≡ held ++ map (λ e. e.name) equations.now) }
    requires driven { AreDriven names.now equations.now (names_of (filter (λ p. not (is_input p.dir)) ports.now)) }
    ensures { IfOk result (λ v. AreOutputRoots (map equation_view equations.now)
        (names_of (filter (λ p. not (is_input p.dir)) ports.now)) v.items) }
{
    let mut index = NameIndex::new(alloc);
    index.insert_all(names)?;
    let held = names.len() - equations.len();
    let mut out = Vec::new(alloc);
    for port in ports {
        if is_output(port) {
            out.push(output_root(&index, held, equations, &port.name))?;
        }
    }
    Ok(out)
}

// Puts what a register loads behind the roots that are there.
fn push_register<'a>(out: &mut Vec<RootExpr<'a>>, register: &'a Register) -> Result<(), AllocError>
    ensures views { OnOk result (map root_view out.new.items ≡ map root_view out.old.items ++ register_roots (register_view register.now ∷ [])) }
    ensures none { OnOk result (map (λ r. is_some r.equation) out.new.items ≡ map (λ r. is_some r.equation) out.old.items ++ false ∷ false ∷ []) }
    ensures placed { OnOk result ((equations : List EquationValue) → All (IsPlaced equations) out.old.items → All (IsPlaced equations) out.new.items) }
{
    out.push(RootExpr {
        name: &register.name,
        expr: &register.next,
        equation: None,
    })?;
    out.push(RootExpr {
        name: &register.name,
        expr: &register.enable,
        equation: None,
    })?;
    Ok(())
}

/// The outputs in the order of names, and then next and enable of each register in the order of names. Takes memory for them, and
/// while they are looked up for an index of the machine's names.
pub fn roots(alloc: Global, m: &Machine) -> Result<Vec<RootExpr<'_>>, AllocError>
    ensures { IfOk result (λ v. AreRoots m.now v.items) }
{
    let names = m.vars().as_slice();
    let equations = m.equations().as_slice();
    let mut out = output_roots(alloc, names, equations, m.ports().as_slice())?;
    for register in m.registers().as_slice() {
        push_register(&mut out, register)?;
    }
    Ok(out)
}
