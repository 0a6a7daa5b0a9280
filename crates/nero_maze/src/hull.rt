// A part of the grid that holds the tree of a net, and what a way to it costs at the least.
ghost use Rattle.std.specs.Prelude.{◌≡◌, ◌<◌, ◌≤◌, ℕ, length, slice_index, slice_set};
ghost use Rattle.grid_core.specs.Numbers.{nodes};
ghost use Rattle.nero_maze.specs.Search.{IsRoom, IsOwn, Kept};
ghost use Rattle.nero_maze.specs.Hulls.{away, far, far_at, Holds};

use crate::frontier::{Marked, Room};
use crate::way::{Place, place_of};
use grid_core::{Grid, NOBODY};
use std::alloc::{AllocError, Global};

/// The numbers from `least` to `most`.
#[derive(Clone, Copy, Drop)]
pub(crate) struct Extent {
    pub(crate) least: u32,
    pub(crate) most: u32,
}

/// The places whose columns, rows and layers are of these.
#[derive(Clone, Copy, Drop)]
pub(crate) struct Hull {
    pub(crate) columns: Extent,
    pub(crate) rows: Extent,
    pub(crate) layers: Extent,
}

/// How far a number is from the nearest of an extent.
fn away_from(extent: Extent, at: u32) -> u64
    ensures is { result ≡ away extent at }
    ensures few { result ≤ 8589934592 }
{
    u64::from(extent.least.saturating_sub(at)) + u64::from(at.saturating_sub(extent.most))
}

/// What a way from a place to the hull costs at the least.
pub(crate) fn far_from(hull: &Hull, place: Place) -> u64
    ensures is { result ≡ far_at hull.now place.layer place.row place.column }
    ensures few { result ≤ 42949672960 }
{
    let columns = away_from(hull.columns, place.column);
    let rows = away_from(hull.rows, place.row);
    let layers = away_from(hull.layers, place.layer);
    columns + rows + 3 * layers
}

/// No number.
fn no_numbers() -> Extent {
    Extent {
        least: 4294967295,
        most: 0,
    }
}

/// The hull of no place.
pub(crate) fn nowhere() -> Hull {
    Hull {
        columns: no_numbers(),
        rows: no_numbers(),
        layers: no_numbers(),
    }
}

/// The extent, and one number.
fn widened(extent: Extent, at: u32) -> Extent
    ensures holds { away result at ≡ 0 }
    ensures kept { (x : ℕ) → away extent x ≡ 0 → away result x ≡ 0 }
{
    Extent {
        least: if at < extent.least { at } else { extent.least },
        most: if extent.most < at { at } else { extent.most },
    }
}

/// The hull, and one place.
fn with_place(hull: Hull, place: Place) -> Hull
    ensures holds { far_at result place.layer place.row place.column ≡ 0 }
    ensures kept { (l r c : ℕ) → far_at hull l r c ≡ 0 → far_at result l r c ≡ 0 }
{
    Hull {
        columns: widened(hull.columns, place.column),
        rows: widened(hull.rows, place.row),
        layers: widened(hull.layers, place.layer),
    }
}

/// The hull, and one node.
pub(crate) fn with_node(grid: &Grid, hull: Hull, node: u32) -> Hull
    requires few { nodes grid.now < 4294967295 }
    requires node { node < nodes grid.now }
    ensures holds { far grid.now result node ≡ 0 }
    ensures kept { (v : ℕ) → far grid.now hull v ≡ 0 → far grid.now result v ≡ 0 }
{
    with_place(hull, place_of(grid, node))
}

/// The hull, and one node if it is in the net's tree.
fn with_own(room: &Room, net: u32, hull: Hull, node: u32) -> Hull
    requires room { IsRoom room.now }
    requires node { node < nodes room.now.grid }
    ensures holds { IsOwn room.now.owners.items room.now.links.items net node → far room.now.grid result node ≡ 0 }
    ensures kept { (v : ℕ) → far room.now.grid hull v ≡ 0 → far room.now.grid result v ≡ 0 }
{
    if room.links[node as usize] == 0 || room.owners[node as usize] != net {
        return hull;
    }
    with_node(&room.grid, hull, node)
}

/// The hull of the net's tree. It goes over all nodes.
pub(crate) fn hull_of_tree(room: &Room, net: u32) -> Hull
    requires room { IsRoom room.now }
    ensures { Holds room.now.grid result room.now.owners.items room.now.links.items net }
{
    let mut hull = nowhere();
    let count = room.owners.len() as u32;
    for node in 0..count {
        hull = with_own(room, net, hull, node);
    }
    hull
}

/// The hull of those nodes of the net's tree that are in the log. It goes over the log alone.
pub(crate) fn hull_of_logged(room: &Room, log: &Marked, net: u32) -> Hull
    requires room { IsRoom room.now }
    requires kept { Kept log.now.order.items log.now.marks.items log.now.count }
    requires size { length log.now.marks.items ≡ nodes room.now.grid }
    ensures { (i : ℕ) → i < log.now.count → IsOwn room.now.owners.items room.now.links.items net (slice_index log.now.order.items i)
        → far room.now.grid result (slice_index log.now.order.items i) ≡ 0 }
{
    let mut hull = nowhere();
    for at in 0..log.count {
        hull = with_own(room, net, hull, log.order[at]);
    }
    hull
}

/// A net's hull becomes another, if one is kept for it.
pub(crate) fn keep_hull(hulls: &mut Vec<Hull>, net: u32, hull: Hull)
    ensures { hulls.new.items ≡ slice_set hulls.old.items net hull }
{
    let at = net as usize;
    if at < hulls.len() {
        hulls[at] = hull;
    }
}

/// A hull of no place for each net that owns a node.
pub(crate) fn hulls_of_owners(alloc: Global, owners: &[u32]) -> Result<Vec<Hull>, AllocError> {
    let mut count = 0;
    for owner in owners {
        let above = *owner as usize + 1;
        if *owner != NOBODY && count < above && above <= owners.len() {
            count = above;
        }
    }
    vec![in alloc; nowhere(); count]
}
