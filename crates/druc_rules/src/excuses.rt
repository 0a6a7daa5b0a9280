// Why two shapes may be near.
ghost use Rattle.std.specs.Prelude.{◌≡◌, ◌<◌, ◌↔◌, length, IsTrue};
ghost use Rattle.std.specs.List.Sorted.{IsNonDecreasingBy};
ghost use Rattle.sym_geom.specs.Rect.{Meet};
ghost use Rattle.net_meaning.specs.Breaches.{IsExcused};
ghost use Rattle.sym_near.specs.Related.{shape_at};
ghost use Rattle.druc_rules.specs.Excuses.{AreOfOne, AreTied, Excuses, IsCovered, IsFirstFrom, IsKnown};

use sym_geom::touches;
use sym_near::Pair;
use sym_shapes::Shape;

/// The shapes of a layout, a number for each, which tells the joined ones, and the pairs of which the second holds the
/// first.
#[derive(Clone, Copy)]
pub struct Layout<'a> {
    pub shapes: &'a [Shape],
    pub numbers: &'a [u32],
    pub holders: &'a [Pair],
}

/// Whether both are of one instance.
fn are_of_one(a: &Shape, b: &Shape) -> bool
    ensures { IsTrue result ↔ AreOfOne a.now b.now }
{
    match (a.owner(), b.owner()) {
        (Some(one), Some(other)) => one.is_same(other),
        _ => false,
    }
}

/// Whether a third shape, which holds the first, excuses the two.
fn excuses(a: &Shape, b: &Shape, third: &Shape) -> bool
    ensures { IsTrue result ↔ Excuses a.now b.now third.now }
{
    if touches(third.rect(), b.rect()) {
        return true;
    }
    a.owner().is_none() && third.name().is_some() && are_of_one(third, b)
}

/// The first of the pairs whose first shape is at this place or behind it.
fn first_from(pairs: &[Pair], place: u32) -> usize
    requires { IsNonDecreasingBy (λ p. p.first) pairs.now }
    ensures { IsFirstFrom pairs.now place result }
{
    pairs.partition_point(|pair| pair.first < place)
}

/// Whether some shape, which holds the first of two, excuses them.
fn is_covered(layout: &Layout<'_>, first: u32, second: u32) -> bool
    requires known { IsKnown layout.now }
    requires first { first < length layout.now.shapes.now }
    requires second { second < length layout.now.shapes.now }
    ensures { IsTrue result ↔ IsCovered layout.now.shapes.now first second }
{
    let one = &layout.shapes[first as usize];
    let other = &layout.shapes[second as usize];
    let start = first_from(layout.holders, first);
    let mut k = start;
    while k < layout.holders.len() && layout.holders[k].first == first {
        let third = layout.holders[k].second;
        if excuses(one, other, &layout.shapes[third as usize]) {
            return true;
        }
        k += 1;
    }
    false
}

/// Whether no instance has either.
fn are_drawn(a: &Shape, b: &Shape) -> bool
    ensures { IsTrue result ↔ ((a.now.owner ≡ None) × (b.now.owner ≡ None)) }
{
    a.owner().is_none() && b.owner().is_none()
}

/// Whether one of two shapes is of an instance, and they are joined.
fn are_tied(layout: &Layout<'_>, first: u32, second: u32) -> bool
    requires known { IsKnown layout.now }
    requires first { first < length layout.now.shapes.now }
    requires second { second < length layout.now.shapes.now }
    ensures { let all = layout.now.shapes.now in IsTrue result ↔ AreTied all (shape_at all first) (shape_at all second) }
{
    let one = &layout.shapes[first as usize];
    let other = &layout.shapes[second as usize];
    if are_drawn(one, other) {
        return false;
    }
    layout.numbers[first as usize] == layout.numbers[second as usize]
}

/// Whether two shapes that don't touch may be near: they are of one instance; one of them is of an instance, and they are joined;
/// or one lies within a third, which touches the other, or over which the first is drawn where it is a pin of the other's instance.
pub fn is_excused(layout: &Layout<'_>, first: u32, second: u32) -> bool
    requires known { IsKnown layout.now }
    requires first { first < length layout.now.shapes.now }
    requires second { second < length layout.now.shapes.now }
    requires apart { let all = layout.now.shapes.now in Meet (shape_at all first).rect (shape_at all second).rect → ⊥ }
    ensures { let all = layout.now.shapes.now in IsTrue result ↔ IsExcused all (shape_at all first) (shape_at all second) }
{
    if are_of_one(
        &layout.shapes[first as usize],
        &layout.shapes[second as usize],
    ) {
        return true;
    }
    if are_tied(layout, first, second) {
        return true;
    }
    if is_covered(layout, first, second) {
        return true;
    }
    is_covered(layout, second, first)
}
