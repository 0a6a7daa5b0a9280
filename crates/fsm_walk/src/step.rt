// The step that a state machine makes from a state.
ghost use Rattle.std.specs.Prelude.{◌≡◌, false, length, map, All, IfOk, IsTrue, MatchOption, slice_index_or};
ghost use Rattle.fsm_machine.specs.Walk.{given_next, given_output};
ghost use Rattle.fsm_machine.specs.Fsm.{fsm_outputs};
ghost use Rattle.fsm_code.specs.Over.{IsAssignmentOver, IsBodyOver};
ghost use Rattle.fsm_code.specs.View.{assignment_view, body_view};
ghost use Rattle.machine_core.specs.Checked.{AreInOrder};
ghost use Rattle.fsm_code.specs.Sought.{nameless, Stands, IsNowhere};
ghost use Rattle.fsm_walk.specs.Trail.{last_given, EachGiven};
ghost use Rattle.fsm_walk.specs.Step.{step_of};

use crate::trail::trail;
use bool_expr::{Bits, value_at};
use fsm_code::{Assignment, Statements, place_of};
use fsm_core::StateMachine;
use std::alloc::{AllocError, Global};
use vlsi_base::{Dir, Name, Names};

/// What a cycle of a state machine comes to: its outputs, in the order of their names, and the next state.
#[derive(Drop)]
pub struct Step {
    pub outs: Bits,
    pub next: u32,
}

/// The output bits of a state machine, in the order of names. Takes memory for them.
pub fn output_names(alloc: Global, machine: &StateMachine) -> Result<Names, AllocError>
    ensures { IfOk result (λ names. names ≡ fsm_outputs machine.now) }
{
    let mut names = Vec::new(alloc);
    for port in machine.ports().as_slice() {
        if port.dir == Dir::Out {
            names.push(port.name.copy(alloc)?)?;
        }
    }
    Ok(Names::new(names))
}

// The next state that the assignments leave.
fn next_of(trail: &[&Assignment]) -> u32
    ensures { result ≡ last_given given_next 0 (map (λ a. assignment_view a.now) trail.now) }
{
    let mut next = 0;
    for assignment in trail {
        if let Assignment::Next(state) = *assignment {
            next = *state;
        }
    }
    next
}

// Whether a name stands at a place.
fn stands_at(names: &[Name], place: usize, name: &Name) -> bool
    ensures { IsTrue result → Stands names.now place name.now }
{
    match names.get(place) {
        Some(other) => other.is_same(name),
        None => false,
    }
}

// The place of an output bit. It is looked for first on both sides of the last place, since a vector is assigned bit by bit.
fn place_beside(outputs: &[Name], target: &Name, last: usize) -> Option<usize>
    requires { AreInOrder outputs.now }
    ensures { MatchOption result (IsNowhere outputs.now target.now) (λ k. Stands outputs.now k target.now) }
{
    let above = last.wrapping_add(1);
    if stands_at(outputs, above, target) {
        return Some(above);
    }
    let below = last.wrapping_sub(1);
    if stands_at(outputs, below, target) {
        return Some(below);
    }
    place_of(outputs, target)
}

// Puts what an assignment gives to an output bit in its place, and gives the place; where there is none, the last one.
fn assign(
    outs: &mut [bool],
    bits: &[bool],
    outputs: &[Name],
    assignment: &Assignment,
    last: usize,
) -> usize
    requires order { AreInOrder outputs.now }
    requires count { length outs.old ≡ length outputs.now }
    requires over { IsAssignmentOver (length bits.now) (assignment_view assignment.now) }
    ensures { EachGiven (λ k. given_output bits.now (slice_index_or outputs.now k nameless)) (assignment_view assignment.now) outs.old outs.new }
{
    let Assignment::Output(target, e) = assignment else {
        return last;
    };
    match place_beside(outputs, target, last) {
        Some(place) => {
            outs[place] = value_at(e, bits);
            place
        }
        None => last,
    }
}

// The output bits that the assignments leave.
fn outputs_of(
    alloc: Global,
    trail: &[&Assignment],
    bits: &[bool],
    outputs: &[Name],
) -> Result<Bits, AllocError>
    requires order { AreInOrder outputs.now }
    requires over { All (λ a. IsAssignmentOver (length bits.now) (assignment_view a.now)) trail.now }
    ensures { IfOk result (λ outs. outs
        ≡ map (λ name. last_given (given_output bits.now name) false (map (λ a. assignment_view a.now) trail.now)) outputs.now) }
{
    let mut outs = vec![in alloc; false; outputs.len()]?;
    let mut place = 0;
    for assignment in trail {
        place = assign(&mut outs, bits, outputs, *assignment, place);
    }
    Ok(Bits::new(outs))
}

/// The step from a state under these bits of the ports, by the statements of a state machine, with these outputs. Takes memory for it.
pub fn step_from(
    alloc: Global,
    body: &Statements,
    outputs: &[Name],
    bits: &[bool],
    state: u32,
) -> Result<Step, AllocError>
    requires order { AreInOrder outputs.now }
    requires over { IsBodyOver (length bits.now) (body_view body.now) }
    ensures { IfOk result (λ made. made ≡ step_of (body_view body.now) outputs.now bits.now state) }
{
    let trail = trail(alloc, bits, state, body)?;
    Ok(Step {
        outs: outputs_of(alloc, &trail, bits, outputs)?,
        next: next_of(&trail),
    })
}
