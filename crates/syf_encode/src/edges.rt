// Which states lead to which.
ghost use Rattle.std.specs.Prelude.{◌≡◌, ◌<◌, ◌≤◌, ◌||◌, ℕ, map, length, is_some, IfOk};
ghost use Rattle.bool_expr.specs.Support.{among};
ghost use Rattle.fsm_machine.specs.Walk.{assigns, part_assigns, branch_assigns};
ghost use Rattle.fsm_machine.specs.Encoding.{given_state, leads, parts_lead, branches_lead};
ghost use Rattle.fsm_code.specs.View.{assignment_view, body_view, parts_view, branches_view};
ghost use Rattle.fsm_core.specs.Checked.{most_states};
ghost use Rattle.syf_encode.specs.Pieces.{is_marked, row, edge, neighbours_by, all_neighbours};

use fsm_code::{Assignment, Branches, Parts, Statements};
use std::alloc::{AllocError, Global};

// Marks the state that an assignment gives to the next state, where it is one of those that can be marked.
fn mark(assignment: &Assignment, marks: &mut [bool])
    ensures each { length marks.new ≡ length marks.old }
    ensures marks { (t : ℕ) → t < length marks.old
        → is_marked marks.new t ≡ (is_marked marks.old t || is_some (given_state t (assignment_view assignment.now))) }
{
    match assignment {
        Assignment::Output(_, _) => {}
        Assignment::Next(state) => {
            if (*state as usize) < marks.len() {
                marks[*state as usize] = true;
            }
        }
    }
}

// Marks each state that some of the statements assigns to the next state.
#[cycle(mark)]
fn mark_assigned(body: &Statements, marks: &mut [bool])
    ensures each { length marks.new ≡ length marks.old }
    ensures marks { (t : ℕ) → t < length marks.old
        → is_marked marks.new t ≡ (is_marked marks.old t || assigns (given_state t) (body_view body.now)) }
{
    let mut rest = body;
    loop {
        match rest {
            Statements::Finish => return,
            Statements::Assign(assignment, after) => {
                mark(assignment, marks);
                rest = after;
            }
            Statements::Choose(parts, after) => {
                mark_in_parts(parts, marks);
                rest = after;
            }
            Statements::Select(branches, after) => {
                mark_in_branches(branches, marks);
                rest = after;
            }
        }
    }
}

#[cycle(mark)]
fn mark_in_parts(parts: &Parts, marks: &mut [bool])
    ensures each { length marks.new ≡ length marks.old }
    ensures marks { (t : ℕ) → t < length marks.old
        → is_marked marks.new t ≡ (is_marked marks.old t || part_assigns (given_state t) (parts_view parts.now)) }
{
    let mut rest = parts;
    loop {
        match rest {
            Parts::Only(_, part) => {
                mark_assigned(part, marks);
                return;
            }
            Parts::Either(_, part, last) => {
                mark_assigned(part, marks);
                mark_assigned(last, marks);
                return;
            }
            Parts::Further(_, part, more) => {
                mark_assigned(part, marks);
                rest = more;
            }
        }
    }
}

#[cycle(mark)]
fn mark_in_branches(branches: &Branches, marks: &mut [bool])
    ensures each { length marks.new ≡ length marks.old }
    ensures marks { (t : ℕ) → t < length marks.old
        → is_marked marks.new t ≡ (is_marked marks.old t || branch_assigns (given_state t) (branches_view branches.now)) }
{
    match branches {
        Branches::Closed => {}
        Branches::Others(part) => mark_assigned(part, marks),
        Branches::Listed(_, part, more) => {
            mark_assigned(part, marks);
            mark_in_branches(more, marks);
        }
    }
}

// Marks each state that is assigned to the next state in the branch of a state.
#[cycle(lead)]
fn mark_led(body: &Statements, state: u32, marks: &mut [bool])
    ensures each { length marks.new ≡ length marks.old }
    ensures marks { (t : ℕ) → t < length marks.old
        → is_marked marks.new t ≡ (is_marked marks.old t || leads state t (body_view body.now)) }
{
    let mut rest = body;
    loop {
        match rest {
            Statements::Finish => return,
            Statements::Assign(_, after) => rest = after,
            Statements::Choose(parts, after) => {
                mark_led_in_parts(parts, state, marks);
                rest = after;
            }
            Statements::Select(branches, after) => {
                mark_branch(branches, state, marks);
                rest = after;
            }
        }
    }
}

#[cycle(lead)]
fn mark_led_in_parts(parts: &Parts, state: u32, marks: &mut [bool])
    ensures each { length marks.new ≡ length marks.old }
    ensures marks { (t : ℕ) → t < length marks.old
        → is_marked marks.new t ≡ (is_marked marks.old t || parts_lead state t (parts_view parts.now)) }
{
    let mut rest = parts;
    loop {
        match rest {
            Parts::Only(_, part) => {
                mark_led(part, state, marks);
                return;
            }
            Parts::Either(_, part, last) => {
                mark_led(part, state, marks);
                mark_led(last, state, marks);
                return;
            }
            Parts::Further(_, part, more) => {
                mark_led(part, state, marks);
                rest = more;
            }
        }
    }
}

// Whether the state is among these.
fn lists(here: &[u32], state: u32) -> bool
    ensures { result ≡ among state here.now }
{
    here.iter().any(|listed| *listed == state)
}

// Marks what is assigned in the first branch that lists the state, or in that of the others.
fn mark_branch(branches: &Branches, state: u32, marks: &mut [bool])
    ensures each { length marks.new ≡ length marks.old }
    ensures marks { (t : ℕ) → t < length marks.old
        → is_marked marks.new t ≡ (is_marked marks.old t || branches_lead state t (branches_view branches.now)) }
{
    let mut rest = branches;
    loop {
        match rest {
            Branches::Closed => return,
            Branches::Others(part) => {
                mark_assigned(part, marks);
                return;
            }
            Branches::Listed(here, part, more) => {
                if lists(here, state) {
                    mark_assigned(part, marks);
                    return;
                }
                rest = more;
            }
        }
    }
}

// For each state, whether the state leads to it.
fn led(alloc: Global, count: usize, body: &Statements, state: u32) -> Result<Vec<bool>, AllocError>
    ensures each { IfOk result (λ marks. length marks.items ≡ count) }
    ensures marks { IfOk result (λ marks. (t : ℕ) → t < count → is_marked marks.items t ≡ leads state t (body_view body.now)) }
{
    let mut marks = vec![in alloc; false; count]?;
    mark_led(body, state, &mut marks);
    Ok(marks)
}

/// For each state the states with which it has an edge, once for each direction: first those to which it leads, then those that lead
/// to it, without itself. Takes memory for the edges.
pub(crate) fn all_neighbours(
    alloc: Global,
    count: usize,
    body: &Statements,
) -> Result<Vec<Vec<u32>>, AllocError>
    requires { count ≤ most_states }
    ensures { IfOk result (λ near. map (λ v. v.items) near.items ≡ all_neighbours (body_view body.now) count) }
{
    let mut leads = Vec::with_capacity(alloc, count)?;
    for state in 0..count {
        leads.push(led(alloc, count, body, state as u32)?)?;
    }
    let mut near = Vec::with_capacity(alloc, count)?;
    for state in 0..count {
        near.push(neighbours(alloc, &leads, state)?)?;
    }
    Ok(near)
}

// Whether one state leads to another, where `leads[s][t]` tells whether s leads to t.
fn has_edge(leads: &[Vec<bool>], from: usize, to: usize) -> bool
    requires from { from < length leads.now }
    requires to { to < length (row (map (λ v. v.items) leads.now) from) }
    ensures { result ≡ edge (map (λ v. v.items) leads.now) from to }
{
    leads[from][to]
}

// The states with which one has an edge, where `leads[s][t]` tells whether s leads to t.
fn neighbours(alloc: Global, leads: &[Vec<bool>], state: usize) -> Result<Vec<u32>, AllocError>
    requires state { state < length leads.now }
    requires few { length leads.now ≤ most_states }
    requires square { (s : ℕ) → s < length leads.now → length (row (map (λ v. v.items) leads.now) s) ≡ length leads.now }
    ensures { IfOk result (λ near. near.items
        ≡ neighbours_by (edge (map (λ v. v.items) leads.now)) (length leads.now) state) }
{
    let mut near = Vec::new(alloc);
    for target in 0..leads.len() {
        if target != state && has_edge(leads, state, target) {
            near.push(target as u32)?;
        }
    }
    for source in 0..leads.len() {
        if source != state && has_edge(leads, source, state) {
            near.push(source as u32)?;
        }
    }
    Ok(near)
}
