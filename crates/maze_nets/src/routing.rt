// The routes of all nets.
ghost use Rattle.std.specs.Prelude.{◌≡◌, ◌<◌, [], None, IfOk, IfErr, IfNone, IfSome, length};
ghost use Rattle.grid_core.specs.Numbers.{nodes};
ghost use Rattle.grid_core.specs.Shown.{tree_in};
ghost use Rattle.grid_core.specs.Trees.{AreRoutes, AreWhole, IsWhole, IsNetOrder};
ghost use Rattle.nero_maze.specs.Routing.{tree_of, IsBare, NoneFrom};
ghost use Rattle.maze_nets.specs.Nets.{net_points, net_reserved, half_perimeter, AreRoutable};
ghost use Rattle.maze_nets.specs.Progress.{AreReserved, IsOrderly, Grows, Stops, HasRouted};
ghost use Rattle.maze_nets.specs.Answers.{AreOrdered, AreStuck, IsRefusal};

use crate::error::RouteError;
use crate::points::NetPoints;
use crate::ranks::net_order;
use crate::reserve::reserve;
use crate::ties::{Ties, penalties_by};
use grid_core::{Grid, Occupied, Routes};
use nero_maze::Router;
use std::alloc::{AllocError, Global};

/// A net, and the number of its point to which no path leads.
#[derive(Clone, Copy, Drop)]
struct Stuck {
    net: u32,
    point: usize,
}

/// A tree over the points of a net, path by path in their order; the number of the point to which no path leads, if there is one.
fn route_net(router: &mut Router, nets: &[NetPoints], net: u32) -> Option<usize>
    requires routable { AreRoutable router.old.occupied.grid nets.now }
    requires few { length nets.now < 4294967295 }
    requires net { net < length nets.now }
    requires orderly { IsOrderly router.old.occupied.grid nets.now router.old }
    requires bare { tree_of router.old net ≡ None }
    ensures orderly { IsOrderly router.old.occupied.grid nets.now router.new }
    ensures grows { Grows nets.now net router.old router.new }
    ensures whole { IfNone result (IsWhole (net_points nets.now net) (tree_of router.new net)) }
    ensures stops { IfSome result (λ at. Stops nets.now net at router.old router.new) }
{
    let points = &nets[net as usize];
    let count = points.len();
    if count == 0 {
        return None;
    }
    router.seat(net, points.point(0));
    for at in 1..count {
        if router.connect(net, points.point(at)).is_err() {
            return Some(at);
        }
    }
    None
}

/// Trees over the points of nets, one net after another in this order, up to the first point to which no path leads.
fn route_in_order(router: &mut Router, nets: &[NetPoints], order: &[u32]) -> Option<Stuck>
    requires routable { AreRoutable router.old.occupied.grid nets.now }
    requires few { length nets.now < 4294967295 }
    requires order { IsNetOrder (half_perimeter nets.now) (length nets.now) order.now }
    requires bare { HasRouted router.old.occupied.grid nets.now [] router.old }
    ensures only { NoneFrom (length nets.now) router.new }
    ensures routes { AreRoutes router.old.occupied.grid (net_reserved nets.now) (net_points nets.now) (length nets.now)
        (tree_of router.new) }
    ensures all { IfNone result (AreOrdered router.old.occupied.grid nets.now (tree_of router.new)) }
    ensures stuck { IfSome result (λ s. AreStuck router.old.occupied.grid nets.now (tree_of router.new) s.net s.point) }
{
    for net in order {
        if let Some(point) = route_net(router, nets, *net) {
            return Some(Stuck { net: *net, point });
        }
    }
    None
}

/// A router over a grid in which each net owns what is reserved for it, and none has a tree. Takes 19 bytes a node, and none for what
/// the router's later calls need.
pub fn router_for(
    alloc: Global,
    grid: Grid,
    nets: &[NetPoints],
    ties: Ties,
) -> Result<Router, AllocError>
    requires few_nodes { nodes grid < 4294967295 }
    requires few { length nets.now < 4294967295 }
    requires routable { AreRoutable grid nets.now }
    ensures grid { IfOk result (λ r. r.occupied.grid ≡ grid) }
    ensures bare { IfOk result (λ r. HasRouted grid nets.now [] r) }
    ensures reserved { IfOk result (λ r. AreReserved grid (net_reserved nets.now) r.reserved) }
{
    let mut occupied = Occupied::begin(alloc, grid)?;
    reserve(&mut occupied, nets);
    let penalties = penalties_by(alloc, grid, nets, ties)?;
    Router::begin_with(alloc, occupied, penalties)
}

/// The routes of nets in this order, where paths of one cost are chosen so.
fn attempt(
    alloc: Global,
    grid: Grid,
    nets: &[NetPoints],
    order: &[u32],
    ties: Ties,
) -> Result<Routes, RouteError>
    requires few_nodes { nodes grid < 4294967295 }
    requires few { length nets.now < 4294967295 }
    requires routable { AreRoutable grid nets.now }
    requires order { IsNetOrder (half_perimeter nets.now) (length nets.now) order.now }
    ensures size { IfOk result (λ r. length r ≡ length nets.now) }
    ensures routes { IfOk result (λ r. AreRoutes grid (net_reserved nets.now) (net_points nets.now) (length nets.now) (tree_in r)) }
    ensures ordered { IfOk result (λ r. AreOrdered grid nets.now (tree_in r)) }
    ensures refused { IfErr result (λ e. IsRefusal grid nets.now e) }
{
    let mut router = router_for(alloc, grid, nets, ties)?;
    let stuck = route_in_order(&mut router, nets, order);
    let routes = router.routes(alloc, nets.len())?;
    match stuck {
        None => Ok(routes),
        Some(stuck) => Err(RouteError::NoPath {
            net: stuck.net,
            point: stuck.point,
            so_far: routes,
        }),
    }
}

/// Whether a net got stuck.
fn is_stuck(routes: &Result<Routes, RouteError>) -> bool {
    matches!(routes, Err(RouteError::NoPath { .. }))
}

/// The routes of nets in this order. Where a net gets stuck, other paths of least cost are tried, twice; the last answer stands.
fn attempts(
    alloc: Global,
    grid: Grid,
    nets: &[NetPoints],
    order: &[u32],
) -> Result<Routes, RouteError>
    requires few_nodes { nodes grid < 4294967295 }
    requires few { length nets.now < 4294967295 }
    requires routable { AreRoutable grid nets.now }
    requires order { IsNetOrder (half_perimeter nets.now) (length nets.now) order.now }
    ensures size { IfOk result (λ r. length r ≡ length nets.now) }
    ensures routes { IfOk result (λ r. AreRoutes grid (net_reserved nets.now) (net_points nets.now) (length nets.now) (tree_in r)) }
    ensures ordered { IfOk result (λ r. AreOrdered grid nets.now (tree_in r)) }
    ensures refused { IfErr result (λ e. IsRefusal grid nets.now e) }
{
    let first = attempt(alloc, grid, nets, order, Ties::High);
    if !is_stuck(&first) {
        return first;
    }
    let second = attempt(alloc, grid, nets, order, Ties::Apart);
    if !is_stuck(&second) {
        return second;
    }
    attempt(alloc, grid, nets, order, Ties::First)
}

/// The routes of nets over a grid: by half perimeter, then by number, each by least paths from its first point on, beside the trees
/// of those before it and what is reserved for others. A net's port and its terminals are its points; reserved for it are these and
/// the nodes above its terminals. Refused exactly where a net gets stuck so. Which of several least paths is taken is free; where a net
/// gets stuck, others are tried. Takes 19 bytes a node, and memory for the routes.
pub fn route_nets(alloc: Global, grid: Grid, nets: &[NetPoints]) -> Result<Routes, RouteError>
    requires few_nodes { nodes grid < 4294967295 }
    requires few { length nets.now < 4294967295 }
    requires routable { AreRoutable grid nets.now }
    ensures size { IfOk result (λ r. length r ≡ length nets.now) }
    ensures routes { IfOk result (λ r. AreRoutes grid (net_reserved nets.now) (net_points nets.now) (length nets.now) (tree_in r)) }
    ensures whole { IfOk result (λ r. AreWhole (net_points nets.now) (length nets.now) (tree_in r)) }
    ensures ordered { IfOk result (λ r. AreOrdered grid nets.now (tree_in r)) }
    ensures refused { IfErr result (λ e. IsRefusal grid nets.now e) }
{
    let order = net_order(alloc, nets)?;
    attempts(alloc, grid, nets, &order)
}
