// Vectors that tell two states apart.
ghost use Rattle.std.specs.Prelude.{◌≡◌, ◌<◌, ℕ, length, IfSome, IfNone, IfOk};
ghost use Rattle.fsm_merge.specs.Numbering.{nth};
ghost use Rattle.fmi_refine.specs.Rows.{AreRows};
ghost use Rattle.fmi_refine.specs.Refined.{AreLevels, Tells, last_level};

use crate::compare::{apart_by, class_at, first_apart};
use crate::round::{Partition, Row};
use bool_expr::Vars;
use std::alloc::{AllocError, Global};

/// Partitions of the states over their moves, and what `hints` says of each two states.
#[derive(Clone, Copy)]
pub struct Refinement<'a> {
    pub rows: &'a [Row],
    pub levels: &'a [Partition],
    /// For each state a vector for each state before it.
    pub hints: &'a [Vars],
}

// The first vector under which the moves of two states aren't alike by the last partition that has them in one class, if a later one tells
// them apart.
fn hint_between(rows: &[Row], levels: &[Partition], s: u32, t: u32) -> u32
    requires rows { AreRows rows.now }
    requires first { s < length rows.now }
    requires second { t < length rows.now }
{
    let mut level = levels.len();
    let mut are_apart = false;
    while level > 0 {
        level -= 1;
        let classes = levels[level].state_of.as_slice();
        if class_at(classes, s) != class_at(classes, t) {
            are_apart = true;
        } else if are_apart {
            return first_apart(rows, classes, s, t).unwrap_or(0);
        } else {
            return 0;
        }
    }
    0
}

// Hints for a state with each state before it. Takes memory for them.
fn hints_with(alloc: Global, rows: &[Row], levels: &[Partition], s: u32) -> Result<Vars, AllocError>
    requires rows { AreRows rows.now }
    requires state { s < length rows.now }
{
    let mut made = Vec::with_capacity(alloc, s as usize)?;
    for t in 0..s {
        made.push(hint_between(rows, levels, s, t))?;
    }
    Ok(Vars::new(made))
}

/// For each two states that the partitions tell apart the vector that `telling` begins with, so that it needn't be looked for each time that a
/// test comes to them. Takes memory for them. They are proposals: what `telling` promises holds with any numbers.
pub fn hints(alloc: Global, rows: &[Row], levels: &[Partition]) -> Result<Vec<Vars>, AllocError>
    requires rows { AreRows rows.now }
{
    let mut made = Vec::with_capacity(alloc, rows.len())?;
    for s in 0..rows.len() as u32 {
        made.push(hints_with(alloc, rows, levels, s)?)?;
    }
    Ok(made)
}

// The hint for two states.
fn hint_of(hints: &[Vars], s: u32, t: u32) -> u32 {
    let (low, high) = if s < t { (s, t) } else { (t, s) };
    match hints.get(high as usize) {
        Some(row) => row.as_slice().get(low as usize).copied().unwrap_or(0),
        None => 0,
    }
}

/// Vectors, by their numbers, that lead from two states of different classes to different outputs, fewer than there are partitions:
/// under each the two states that are reached aren't alike by the classes of one round before. The hints' vectors are taken where they are
/// such. Takes memory for them.
pub fn telling(alloc: Global, by: &Refinement, s: u32, t: u32) -> Result<Vec<u32>, AllocError>
    requires rows { AreRows by.now.rows.now }
    requires levels { AreLevels by.now.rows.now by.now.levels.now }
    requires first { s < length by.now.rows.now }
    requires second { t < length by.now.rows.now }
    requires apart { nth (last_level by.now.levels.now).state_of s ≡ nth (last_level by.now.levels.now).state_of t → ⊥ }
    ensures tells { IfOk result (λ made. Tells by.now.rows.now s t made.items) }
    ensures few { IfOk result (λ made. length made.items < length by.now.levels.now) }
{
    let rows = by.rows;
    let levels = by.levels;
    let mut made = Vec::new(alloc);
    let mut first = s;
    let mut second = t;
    let mut level = levels.len() - 1;
    while level > 0 {
        level -= 1;
        let classes = levels[level].state_of.as_slice();
        if class_at(classes, first) == class_at(classes, second) {
            let hint = hint_of(by.hints, first, second);
            let Some(v) = apart_by(rows, classes, hint, first, second) else {
                unreachable!()
            };
            made.push(v)?;
            let a = &rows[first as usize].as_slice()[v as usize];
            let b = &rows[second as usize].as_slice()[v as usize];
            if a.outs != b.outs {
                return Ok(made);
            }
            first = a.next;
            second = b.next;
        }
    }
    unreachable!()
}
