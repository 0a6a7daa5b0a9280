// All pairs of shapes that are related.
ghost use Rattle.std.specs.Prelude.{◌≡◌, [], ◌<◌, ◌^◌, ◌↔◌, length, false, IfOk, IsTrue};
ghost use Rattle.sym_geom.specs.Rect.{IsRect};
ghost use Rattle.sym_near.specs.declared.near.Relation.TheVariants as relation;
ghost use Rattle.sym_near.specs.Related.{AreRelated};
ghost use Rattle.sym_near.specs.Sweep.{PlacesWithin, Ordered, SharesAll, SharesEither, AreSwept, AreRects};

use crate::bands::{Cut, cuts, entries as entries_of};
use crate::near::{Pair, Relation};
use crate::sweep::{Entry, Search, look_all};
use std::alloc::{AllocError, Global};
use sym_shapes::Shape;

/// Pairs of shapes of one metal by their places, in the order of the first and then of the second, each once.
#[derive(Drop)]
pub struct NearPairs {
    /// Those that don't touch and whose gap is less than one that was given, the earlier shape first.
    pub near: Vec<Pair>,
    /// Those of which the second holds the first, where there are near ones.
    pub held: Vec<Pair>,
}

/// The entries of a sweep, and those of a second one in turned bands.
#[derive(Clone, Copy)]
struct Sweeps<'a> {
    entries: &'a [Entry],
    turned: &'a [Entry],
}

/// All pairs of which the first is so related to the second, in their order, each once. Takes memory for them.
fn related(
    alloc: Global,
    shapes: &[Shape],
    search: Search,
    sweeps: Sweeps<'_>,
) -> Result<Vec<Pair>, AllocError>
    requires places { PlacesWithin shapes.now sweeps.entries.now × PlacesWithin shapes.now sweeps.turned.now }
    requires ordered { Ordered sweeps.entries.now × Ordered sweeps.turned.now }
    requires shares { SharesEither shapes.now search.relation search.beside sweeps.entries.now sweeps.turned.now }
    ensures { IfOk result (λ pairs. AreRelated shapes.now search.relation pairs.items) }
{
    let mut pairs = Vec::new(alloc);
    look_all(&mut pairs, shapes, search, sweeps.entries)?;
    look_all(&mut pairs, shapes, search, sweeps.turned)?;
    pairs.sort()?;
    pairs.dedup();
    Ok(pairs)
}

/// Whether the edges of a shape's rectangle are in order.
fn is_rect(shape: &Shape) -> bool
    ensures { IsTrue result ↔ IsRect shape.now.rect }
{
    let rect = shape.rect();
    if rect.x2 < rect.x1 {
        return false;
    }
    rect.y1 <= rect.y2
}

/// Whether those of all rectangles are.
fn are_rects(shapes: &[Shape]) -> bool
    ensures { IsTrue result ↔ AreRects shapes.now }
{
    shapes.iter().all(|shape| is_rect(shape))
}

/// The near pairs: those that stand beside one another in bands, and in turned ones.
fn near(
    alloc: Global,
    shapes: &[Shape],
    cuts: &[Cut],
    gap: u32,
    entries: &[Entry],
) -> Result<Vec<Pair>, AllocError>
    requires room { length shapes.now < 2 ^ 32 }
    requires cuts { length cuts.now ≡ 256 }
    requires swept { AreSwept false shapes.now cuts.now gap entries.now }
    ensures { IfOk result (λ pairs. AreRelated shapes.now (relation.Near gap) pairs.items) }
{
    let relation = Relation::Near(gap);
    if !are_rects(shapes) {
        let search = Search {
            relation,
            beside: None,
        };
        let turned = &[];
        return related(alloc, shapes, search, Sweeps { entries, turned });
    }
    let search = Search {
        relation,
        beside: Some(gap),
    };
    let across = entries_of(alloc, shapes, cuts, true, gap)?;
    let turned = across.as_slice();
    related(alloc, shapes, search, Sweeps { entries, turned })
}

/// The pairs of which the second shape holds the first.
fn held(alloc: Global, shapes: &[Shape], entries: &[Entry]) -> Result<Vec<Pair>, AllocError>
    requires places { PlacesWithin shapes.now entries.now }
    requires ordered { Ordered entries.now }
    requires shares { SharesAll shapes.now relation.Held entries.now }
    ensures { IfOk result (λ pairs. AreRelated shapes.now relation.Held pairs.items) }
{
    let search = Search {
        relation: Relation::Held,
        beside: None,
    };
    let turned = &[];
    related(alloc, shapes, search, Sweeps { entries, turned })
}

/// The pairs of shapes of one metal that don't touch and whose gap is less than this, and where there are such, those of which the
/// second holds the first: the first lies within it, and it is larger, or a pin over which the first is drawn. So shapes that coincide
/// don't hold one another. Takes memory for them and for a few entries a shape; time for these, times the logarithm of their number,
/// and for the pairs of shapes in one band of their metal of which one begins less than the gap behind the other's end; and where there
/// are near ones, for the pairs that lie beside one another or overlap in one band.
pub fn near_pairs(alloc: Global, shapes: &[Shape], gap: u32) -> Result<NearPairs, AllocError>
    requires { length shapes.now < 2 ^ 32 }
    ensures near { IfOk result (λ pairs. AreRelated shapes.now (relation.Near gap) pairs.near.items) }
    ensures held { IfOk result (λ pairs. (pairs.near.items ≡ [] → ⊥) → AreRelated shapes.now relation.Held pairs.held.items) }
{
    let cuts = cuts(shapes, gap);
    let entries = entries_of(alloc, shapes, &cuts, false, gap)?;
    let near = near(alloc, shapes, &cuts, gap, &entries)?;
    if near.is_empty() {
        let held = Vec::new(alloc);
        return Ok(NearPairs { near, held });
    }
    let held = held(alloc, shapes, &entries)?;
    Ok(NearPairs { near, held })
}
