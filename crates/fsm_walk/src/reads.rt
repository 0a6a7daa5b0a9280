// Which input bits the statements read.
ghost use Rattle.std.specs.Prelude.{◌≡◌, ◌<◌, ◌^◌, ◌++◌, ◌||◌, ℕ, length, map, OnOk, IfOk};
ghost use Rattle.bool_expr.specs.Expression.{variables, bit};
ghost use Rattle.bool_expr.specs.Support.{among, first_meetings};
ghost use Rattle.bool_expr.specs.View.{view};
ghost use Rattle.fsm_machine.specs.MachineOf.{up};
ghost use Rattle.fsm_code.specs.View.{body_view, parts_view, branches_view};
ghost use Rattle.fsm_walk.specs.Reads.{reads, parts_reads, branches_reads, read_marks, count_of};

use bool_expr::{Bits, Expr, support};
use fsm_code::{Assignment, Branches, Parts, Statements};
use fsm_core::StateMachine;
use std::alloc::{AllocError, Global};

// Puts the variables of an expression behind those that are there.
fn read_expression(alloc: Global, found: &mut Vec<u32>, e: &Expr) -> Result<(), AllocError>
    ensures { OnOk result (found.new.items ≡ found.old.items ++ first_meetings (variables (view e.now))) }
{
    let vars = support(alloc, e)?;
    for k in vars.as_slice() {
        found.push(*k)?;
    }
    Ok(())
}

#[cycle(read)]
fn read(alloc: Global, found: &mut Vec<u32>, body: &Statements) -> Result<(), AllocError>
    ensures { OnOk result (found.new.items ≡ found.old.items ++ reads (body_view body.now)) }
{
    let mut rest = body;
    loop {
        match rest {
            Statements::Finish => return Ok(()),
            Statements::Assign(assignment, after) => {
                if let Assignment::Output(_, e) = assignment {
                    read_expression(alloc, found, e)?;
                }
                rest = after;
            }
            Statements::Choose(parts, after) => {
                read_parts(alloc, found, parts)?;
                rest = after;
            }
            Statements::Select(branches, after) => {
                read_branches(alloc, found, branches)?;
                rest = after;
            }
        }
    }
}

#[cycle(read)]
fn read_parts(alloc: Global, found: &mut Vec<u32>, parts: &Parts) -> Result<(), AllocError>
    ensures { OnOk result (found.new.items ≡ found.old.items ++ parts_reads (parts_view parts.now)) }
{
    match parts {
        Parts::Only(condition, part) => {
            read_expression(alloc, found, condition)?;
            read(alloc, found, part)
        }
        Parts::Either(condition, part, last) => {
            read_expression(alloc, found, condition)?;
            read(alloc, found, part)?;
            read(alloc, found, last)
        }
        Parts::Further(condition, part, more) => {
            read_expression(alloc, found, condition)?;
            read(alloc, found, part)?;
            read_parts(alloc, found, more)
        }
    }
}

#[cycle(read)]
fn read_branches(alloc: Global, found: &mut Vec<u32>, branches: &Branches) -> Result<(), AllocError>
    ensures { OnOk result (found.new.items ≡ found.old.items ++ branches_reads (branches_view branches.now)) }
{
    match branches {
        Branches::Closed => Ok(()),
        Branches::Others(part) => read(alloc, found, part),
        Branches::Listed(_, part, more) => {
            read(alloc, found, part)?;
            read_branches(alloc, found, more)
        }
    }
}

// Marks, with those of these places set.
fn set_all(marks: &mut [bool], places: &[u32])
    ensures length { length marks.new ≡ length marks.old }
    ensures set { (k : ℕ) → k < length marks.old → bit marks.new k ≡ (bit marks.old k || among k places.now) }
{
    for place in places {
        if (*place as usize) < marks.len() {
            marks[*place as usize] = true;
        }
    }
}

/// For each port of a state machine, by its number, whether the statements read it. Takes memory for what they read.
pub fn marks(alloc: Global, machine: &StateMachine) -> Result<Bits, AllocError>
    ensures { IfOk result (λ marks. marks ≡ read_marks machine.now) }
{
    let mut found = Vec::new(alloc);
    read(alloc, &mut found, machine.body())?;
    let mut marks = vec![in alloc; false; machine.ports().as_slice().len()]?;
    set_all(&mut marks, &found);
    Ok(Bits::new(marks))
}

/// How many marks there are. Takes no memory.
pub fn count(marks: &[bool]) -> u32
    requires { length marks.now < 2 ^ 32 }
    ensures { result ≡ count_of marks.now }
{
    let mut count = 0;
    for mark in marks {
        if *mark {
            count += 1;
        }
    }
    count
}
