// Cuts that differ only in which gates of the tree they read.
ghost use Rattle.std.specs.Prelude.{◌≡◌, ◌<◌, ◌≤◌, ℕ, IsTrue, length, slice_index, if◌then◌else◌};
ghost use Rattle.bool_expr.specs.Expression.{bit};
ghost use Rattle.boog_tree.specs.Sums.{inner_sum};
ghost use Rattle.boog_tree.specs.Alike.{MayStand, HaveAlike, AreAlike};

use crate::cuts::MOST_MEMBERS;
use cell_match::Cut;

/// Whether a number is that of a gate which belongs to its user's tree.
pub(crate) fn is_marked(inner: &[bool], number: u32) -> bool
    ensures { result ≡ bit inner.now number }
{
    inner.get(number as usize).copied().unwrap_or(false)
}

fn bound_of(bounds: &[u64], number: u32) -> u64
    ensures { result ≡ slice_index bounds.now number }
{
    bounds.get(number as usize).copied().unwrap_or(0)
}

/// What a member adds to the cost of a match: its bound, where it lies in the tree.
fn share(inner: &[bool], bounds: &[u64], number: u32) -> u64
    ensures { result ≡ (if bit inner.now number then slice_index bounds.now number else 0) }
{
    if is_marked(inner, number) {
        bound_of(bounds, number)
    } else {
        0
    }
}

/// The bounds of those members that lie in the tree, together.
pub(crate) fn sum(members: &[u32], inner: &[bool], bounds: &[u64]) -> u128
    requires { length members.now ≤ 6 }
    ensures { result ≡ inner_sum (bit inner.now) (slice_index bounds.now) members.now }
{
    let mut sum = 0;
    for member in members {
        sum += u128::from(share(inner, bounds, *member));
    }
    sum
}

/// Whether a member may stand where another does: it is the same, or both lie in the tree.
fn may_stand(one: u32, other: u32, inner: &[bool]) -> bool
    ensures { IsTrue result → MayStand (bit inner.now) one other }
{
    one == other || is_marked(inner, one) && is_marked(inner, other)
}

fn have_alike(first: &[u32], second: &[u32], inner: &[bool]) -> bool
    ensures { IsTrue result → HaveAlike (bit inner.now) first.now second.now }
{
    if first.len() != second.len() {
        return false;
    }
    for at in 0..first.len() {
        if !may_stand(first[at], second[at], inner) {
            return false;
        }
    }
    true
}

/// Whether two cuts have the same function and, place by place, the same members, or two gates of the tree.
pub(crate) fn are_alike(
    first: &Cut<MOST_MEMBERS>,
    second: &Cut<MOST_MEMBERS>,
    inner: &[bool],
) -> bool
    ensures { IsTrue result → AreAlike (bit inner.now) first.now second.now }
{
    first.word.word == second.word.word
        && have_alike(first.leaves.as_slice(), second.leaves.as_slice(), inner)
}
