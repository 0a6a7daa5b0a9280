// The area of all trees.
ghost use Rattle.std.specs.Prelude.{◌≡◌, ◌<◌, ◌^◌, ℕ, length, slice_index};
ghost use Rattle.cell_match.specs.Places.{times};
ghost use Rattle.boog_tree.specs.Sums.{total};

use boog_tree::LeastCover;

/// The bounds of these roots together.
fn sum_of_bounds(roots: &[u32], bounds: &[u64]) -> u128
    requires few { length roots.now < 2 ^ 32 }
    requires there { (x : ℕ) → 0 < times x roots.now → x < length bounds.now }
    ensures { result ≡ total (slice_index bounds.now) roots.now }
{
    let mut area = 0;
    for root in roots {
        let at = *root as usize;
        area += u128::from(bounds[at]);
    }
    area
}

/// The bounds of the roots together, in columns. Takes no memory.
pub fn whole_area(cover: &LeastCover) -> u128
    requires few { length cover.now.trees.items < 2 ^ 32 }
    requires there { (x : ℕ) → 0 < times x cover.now.trees.items → x < length cover.now.bounds.items }
    ensures { result ≡ total (slice_index cover.now.bounds.items) cover.now.trees.items }
{
    sum_of_bounds(&cover.trees, &cover.bounds)
}
