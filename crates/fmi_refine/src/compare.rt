// Moves and states, compared by classes of states.
ghost use Rattle.std.specs.Prelude.{◌≡◌, ◌<◌, ◌^◌, ℕ, length, IfSome, IfNone};
ghost use Rattle.std.specs.Bool.{OnTrue, OnFalse};
ghost use Rattle.fsm_merge.specs.Numbering.{nth};
ghost use Rattle.fmi_refine.specs.Rows.{AreAlike, AreRows, AreSame, move_at, move_in, vectors_of};

use crate::round::{Move, Row};

/// The class of a state. Takes no memory.
pub fn class_at(classes: &[u32], state: u32) -> u32
    ensures { result ≡ nth classes.now state }
{
    classes.get(state as usize).copied().unwrap_or(0)
}

// Whether two moves have the same outputs, and lead to states of one class.
fn are_alike(classes: &[u32], a: &Move, b: &Move) -> bool
    ensures yes { OnTrue result (AreAlike classes.now a.now b.now) }
    ensures no { OnFalse result (AreAlike classes.now a.now b.now → ⊥) }
{
    class_at(classes, a.next) == class_at(classes, b.next) && a.outs == b.outs
}

// The first vector under which the moves of two rows aren't alike.
fn first_in(classes: &[u32], first: &[Move], second: &[Move]) -> Option<u32>
    requires same { length first.now ≡ length second.now }
    requires few { length first.now < 2 ^ 32 }
    ensures some { IfSome result (λ v. (v < length first.now) × (AreAlike classes.now (move_in first.now v) (move_in second.now v) → ⊥)) }
    ensures none { IfNone result ((v : ℕ) → v < length first.now → AreAlike classes.now (move_in first.now v) (move_in second.now v)) }
{
    for (v, a) in first.iter().enumerate() {
        if !are_alike(classes, a, &second[v]) {
            return Some(v as u32);
        }
    }
    None
}

/// The first vector under which the moves of two states aren't alike by these classes. Takes no memory.
pub fn first_apart(rows: &[Row], classes: &[u32], s: u32, t: u32) -> Option<u32>
    requires rows { AreRows rows.now }
    requires first { s < length rows.now }
    requires second { t < length rows.now }
    ensures some { IfSome result (λ v. (v < vectors_of rows.now) × (AreAlike classes.now (move_at rows.now s v) (move_at rows.now t v) → ⊥)) }
    ensures none { IfNone result ((v : ℕ) → v < vectors_of rows.now → AreAlike classes.now (move_at rows.now s v) (move_at rows.now t v)) }
{
    first_in(
        classes,
        rows[s as usize].as_slice(),
        rows[t as usize].as_slice(),
    )
}

/// A vector under which the moves of two states aren't alike by these classes: the one that is proposed where it is such a vector, and the
/// first one where it isn't. Takes no memory.
pub fn apart_by(rows: &[Row], classes: &[u32], proposed: u32, s: u32, t: u32) -> Option<u32>
    requires rows { AreRows rows.now }
    requires first { s < length rows.now }
    requires second { t < length rows.now }
    ensures some { IfSome result (λ v. (v < vectors_of rows.now) × (AreAlike classes.now (move_at rows.now s v) (move_at rows.now t v) → ⊥)) }
    ensures none { IfNone result ((v : ℕ) → v < vectors_of rows.now → AreAlike classes.now (move_at rows.now s v) (move_at rows.now t v)) }
{
    let first = rows[s as usize].as_slice();
    let second = rows[t as usize].as_slice();
    let v = proposed as usize;
    if v < first.len() && !are_alike(classes, &first[v], &second[v]) {
        return Some(proposed);
    }
    first_in(classes, first, second)
}

/// Whether two states are in one class, and their moves alike under each vector. Takes no memory.
pub fn are_same(rows: &[Row], classes: &[u32], s: u32, t: u32) -> bool
    requires rows { AreRows rows.now }
    requires first { s < length rows.now }
    requires second { t < length rows.now }
    ensures yes { OnTrue result (AreSame rows.now classes.now s t) }
    ensures no { OnFalse result (AreSame rows.now classes.now s t → ⊥) }
{
    class_at(classes, s) == class_at(classes, t) && first_apart(rows, classes, s, t).is_none()
}
