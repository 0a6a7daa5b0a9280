// How long the nets of a placement are.
ghost use Rattle.std.specs.Prelude.{◌≡◌, ◌≢◌, ◌≤◌, ◌<◌, ◌++◌, ◌∷◌, [], ℤ, List, map, pos, length as list_length, slice_index_or, IfSome};
ghost use Rattle.std.specs.List.{All};
ghost use Rattle.net_core.specs.Netlist.{Netlist as InMemory};
ghost use Rattle.vlsi_base.specs.Names.{vdd, vss};
ghost use Rattle.cell_model.specs.Library.{Library as Cells};
ghost use Rattle.net_meaning.specs.Netlist.{AbstractNetlist, port};
ghost use Rattle.net_right.specs.View.{IsSeenAs};
ghost use Rattle.ocp_rows.specs.Length.{extent, net_points, half_box, half_perimeter};
ghost use Rattle.ocp_place.specs.Law.{row_of};
ghost use Rattle.ocp_place.specs.Placed.{IsPlacementOf, IsRowPlacementOf, rows_of};
ghost use Rattle.ocp_place.specs.Reaches.{site_of};
ghost use Rattle.ocp_place.specs.Sites.{class_length, length_of};
ghost use Rattle.ocp_place.specs.Spans.{along_axis, span, shown_span};

use crate::Placement;
use crate::row::Site;
use cell_checks::Library;

/// The coordinate of a point along one of the axes.
fn along_axis(site: &Site, upright: bool) -> u64
    ensures { result ≡ along_axis upright site.now }
{
    if upright { site.y } else { site.x }
}

/// A range of numbers with one more; only this one where there was none.
fn widened(range: Option<(u64, u64)>, z: u64) -> Option<(u64, u64)>
    requires range { IfSome range (λ r. (r.0 ≤ 100000000000000) × (r.1 ≤ 100000000000000)) }
    requires z { z ≤ 100000000000000 }
    ensures near { IfSome result (λ r. (r.0 ≤ 100000000000000) × (r.1 ≤ 100000000000000)) }
    ensures span { (numbers : List ℤ) → shown_span range ≡ span numbers → shown_span result ≡ span (numbers ++ pos z ∷ []) }
{
    match range {
        None => Some((z, z)),
        Some((low, high)) => Some((z.min(low), z.max(high))),
    }
}

/// The least and the greatest coordinate of points along an axis; none where there are no points. Takes no memory.
pub fn span(sites: &[Site], upright: bool) -> Option<(u64, u64)>
    requires { All (λ s. (s.x ≤ 100000000000000) × (s.y ≤ 100000000000000)) sites.now }
    ensures near { IfSome result (λ r. (r.0 ≤ 100000000000000) × (r.1 ≤ 100000000000000)) }
    ensures span { shown_span result ≡ span (map (λ s. pos (along_axis upright s)) sites.now) }
{
    let mut range = None;
    for site in sites {
        range = widened(range, along_axis(site, upright));
    }
    range
}

/// How far points reach along an axis.
fn extent(sites: &[Site], upright: bool) -> u64
    requires { All (λ s. (s.x ≤ 100000000000000) × (s.y ≤ 100000000000000)) sites.now }
    ensures value { result ≡ extent (map (λ s. pos (along_axis upright s)) sites.now) }
    ensures near { result ≤ 100000000000000 }
{
    match span(sites, upright) {
        None => 0,
        Some((low, high)) => high - low,
    }
}

/// Half the perimeter of the box of points.
fn half_box(sites: &[Site]) -> u64
    requires { All (λ s. (s.x ≤ 100000000000000) × (s.y ≤ 100000000000000)) sites.now }
    ensures value { result ≡ half_box (map (λ s. (site_of s).1) sites.now) }
    ensures near { result ≤ 200000000000000 }
{
    extent(sites, false) + extent(sites, true)
}

/// Half the perimeter of the box of a class's points.
fn box_of(placement: &Placement, class: u32) -> u64
    requires { class < list_length placement.now.ends }
    ensures value { result ≡ half_box (slice_index_or placement.now.ends class []) }
    ensures near { result ≤ 200000000000000 }
{
    half_box(&placement.ends[class as usize])
}

/// Half the perimeter of the box of a class's points. Takes no memory.
pub fn net_length(placement: &Placement, class: u32) -> u64
    requires { class < list_length placement.now.ends }
    ensures value { result ≡ half_box (slice_index_or placement.now.ends class []) }
    ensures near { result ≤ 200000000000000 }
    ensures rows { (l : Cells) (n : InMemory) (k : AbstractNetlist) → IsRowPlacementOf l n placement.now → IsSeenAs n k
        → class ≢ k.class (port vdd) → class ≢ k.class (port vss) → result ≡ half_box (net_points k l (rows_of k placement.now) class) }
{
    box_of(placement, class)
}

/// Half the perimeter of the box of a class; 0 for the classes of vdd and vss.
fn class_length(placement: &Placement, class: usize) -> u64
    requires { class < list_length placement.now.ends }
    ensures value { result ≡ class_length placement.now.high placement.now.low placement.now.ends class }
    ensures near { result ≤ 200000000000000 }
{
    if class == placement.high as usize || class == placement.low as usize {
        return 0;
    }
    half_box(&placement.ends[class])
}

/// The sum of half the perimeters of the boxes of all classes but those of vdd and vss.
fn length(placement: &Placement) -> u128
    ensures { result ≡ length_of placement.now.high placement.now.low placement.now.ends }
{
    let mut sum: u128 = 0;
    for class in 0..placement.ends.len() {
        sum += u128::from(class_length(placement, class));
    }
    sum
}

/// The sum of half the perimeters of the boxes of all nets of the netlist that a placement is of. Takes no memory, and time for each
/// terminal.
pub fn half_perimeter(placement: &Placement, library: &Library) -> u128
    ensures tracks { (n : InMemory) (k : AbstractNetlist) → IsPlacementOf library.now n placement.now → IsSeenAs n k
        → result ≡ half_perimeter k library.now (row_of k) }
    ensures rows { (n : InMemory) (k : AbstractNetlist) → IsRowPlacementOf library.now n placement.now → IsSeenAs n k
        → result ≡ half_perimeter k library.now (rows_of k placement.now) }
{
    length(placement)
}
