// One round: states of one class are told apart by where their moves lead.
ghost use Rattle.std.specs.Prelude.{◌≡◌, ◌<◌, ◌≤◌, ℕ, length, IfSome, IfNone, IfOk};
ghost use Rattle.fsm_merge.specs.Numbering.{nth};
ghost use Rattle.fmi_refine.specs.Rows.{AreRows, AreSame};
ghost use Rattle.fmi_refine.specs.Refined.{IsRefined};

use crate::compare::are_same;
use bool_expr::Vars;
use std::alloc::{AllocError, Global};
use vlsi_base::Listed;

/// What a state machine does in a cycle: a number for its outputs, which other outputs don't have, and the next state.
#[derive(Clone, Copy)]
pub struct Move {
    pub outs: usize,
    pub next: u32,
}

/// The moves of a state, one for each vector.
pub type Row = Listed<Move>;

/// Classes of states: the class of each state, and of each class the least state.
#[derive(Drop)]
pub struct Partition {
    pub state_of: Vars,
    pub kept: Vars,
}

// The class of a state, by the first kept state that is the same.
fn class_of(rows: &[Row], classes: &[u32], kept: &[u32], s: u32) -> Option<u32>
    requires rows { AreRows rows.now }
    requires kept { (k : ℕ) → k < length kept.now → nth kept.now k < length rows.now }
    requires few { length kept.now ≤ s }
    requires state { s < length rows.now }
    ensures some { IfSome result (λ k. (k < length kept.now) × AreSame rows.now classes.now (nth kept.now k) s) }
    ensures none { IfNone result ((k : ℕ) → k < length kept.now → AreSame rows.now classes.now (nth kept.now k) s → ⊥) }
{
    for (k, least) in kept.iter().enumerate() {
        if are_same(rows, classes, *least, s) {
            return Some(k as u32);
        }
    }
    None
}

/// Classes of the states: two are in one where they are the same by these classes. Takes memory for the classes.
pub fn refined(alloc: Global, rows: &[Row], classes: &[u32]) -> Result<Partition, AllocError>
    requires rows { AreRows rows.now }
    ensures { IfOk result (λ made. IsRefined rows.now classes.now (length rows.now) made.state_of made.kept) }
{
    let mut state_of: Vec<u32> = Vec::new(alloc);
    let mut kept: Vec<u32> = Vec::new(alloc);
    for s in 0..rows.len() as u32 {
        match class_of(rows, classes, &kept, s) {
            Some(class) => state_of.push(class)?,
            None => {
                state_of.push(kept.len() as u32)?;
                kept.push(s)?;
            }
        }
    }
    Ok(Partition {
        state_of: Vars::new(state_of),
        kept: Vars::new(kept),
    })
}
