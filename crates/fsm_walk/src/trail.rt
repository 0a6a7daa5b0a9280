// The assignments that a walk through statements meets.
ghost use Rattle.std.specs.Prelude.{◌≡◌, ◌++◌, length, map, OnOk, IfOk};
ghost use Rattle.bool_expr.specs.Support.{among};
ghost use Rattle.fsm_code.specs.Over.{IsBodyOver, ArePartsOver, AreBranchesOver};
ghost use Rattle.fsm_code.specs.View.{assignment_view, body_view, parts_view, branches_view};
ghost use Rattle.fsm_walk.specs.Trail.{trail, parts_trail, branches_trail};

use bool_expr::value_at;
use fsm_code::{Assignment, Branches, Parts, Statements};
use std::alloc::{AllocError, Global};

// Whether the state is among these.
fn lists(states: &[u32], state: u32) -> bool
    ensures { result ≡ among state states.now }
{
    states.iter().any(|s| *s == state)
}

#[cycle(walk)]
fn walk<'a>(
    found: &mut Vec<&'a Assignment>,
    bits: &[bool],
    state: u32,
    body: &'a Statements,
) -> Result<(), AllocError>
    requires { IsBodyOver (length bits.now) (body_view body.now) }
    ensures { OnOk result (map (λ a. assignment_view a.now) found.new.items
        ≡ map (λ a. assignment_view a.now) found.old.items ++ trail bits.now state (body_view body.now)) }
{
    let mut rest = body;
    loop {
        match rest {
            Statements::Finish => return Ok(()),
            Statements::Assign(assignment, after) => {
                found.push(assignment)?;
                rest = after;
            }
            Statements::Choose(parts, after) => {
                walk_parts(found, bits, state, parts)?;
                rest = after;
            }
            Statements::Select(branches, after) => {
                walk_branches(found, bits, state, branches)?;
                rest = after;
            }
        }
    }
}

#[cycle(walk)]
fn walk_parts<'a>(
    found: &mut Vec<&'a Assignment>,
    bits: &[bool],
    state: u32,
    parts: &'a Parts,
) -> Result<(), AllocError>
    requires { ArePartsOver (length bits.now) (parts_view parts.now) }
    ensures { OnOk result (map (λ a. assignment_view a.now) found.new.items
        ≡ map (λ a. assignment_view a.now) found.old.items ++ parts_trail bits.now state (parts_view parts.now)) }
{
    match parts {
        Parts::Only(condition, part) => {
            if value_at(condition, bits) {
                return walk(found, bits, state, part);
            }
            Ok(())
        }
        Parts::Either(condition, part, last) => {
            if value_at(condition, bits) {
                return walk(found, bits, state, part);
            }
            walk(found, bits, state, last)
        }
        Parts::Further(condition, part, more) => {
            if value_at(condition, bits) {
                return walk(found, bits, state, part);
            }
            walk_parts(found, bits, state, more)
        }
    }
}

#[cycle(walk)]
fn walk_branches<'a>(
    found: &mut Vec<&'a Assignment>,
    bits: &[bool],
    state: u32,
    branches: &'a Branches,
) -> Result<(), AllocError>
    requires { AreBranchesOver (length bits.now) (branches_view branches.now) }
    ensures { OnOk result (map (λ a. assignment_view a.now) found.new.items
        ≡ map (λ a. assignment_view a.now) found.old.items ++ branches_trail bits.now state (branches_view branches.now)) }
{
    match branches {
        Branches::Closed => Ok(()),
        Branches::Others(part) => walk(found, bits, state, part),
        Branches::Listed(states, part, more) => {
            if lists(states, state) {
                return walk(found, bits, state, part);
            }
            walk_branches(found, bits, state, more)
        }
    }
}

/// The assignments that a walk through the statements meets, one after another, with a state and these bits of the ports. Takes
/// memory for them.
pub(crate) fn trail<'a>(
    alloc: Global,
    bits: &[bool],
    state: u32,
    body: &'a Statements,
) -> Result<Vec<&'a Assignment>, AllocError>
    requires { IsBodyOver (length bits.now) (body_view body.now) }
    ensures { IfOk result (λ found. map (λ a. assignment_view a.now) found.items ≡ trail bits.now state (body_view body.now)) }
{
    let mut found = Vec::new(alloc);
    walk(&mut found, bits, state, body)?;
    Ok(found)
}
