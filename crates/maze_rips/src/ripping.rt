// Stuck nets have the paths torn out that are in their way.
ghost use Rattle.std.specs.Prelude.{◌≡◌, ◌<◌, ◌≤◌, ◌+◌, List, [], true, false, IfOk, IfErr, IfNone, IfSome, length};
ghost use Rattle.grid_core.specs.declared.grid.Node.{Node as AnyNode};
ghost use Rattle.grid_core.specs.Numbers.{nodes};
ghost use Rattle.grid_core.specs.Shown.{tree_in};
ghost use Rattle.grid_core.specs.Trees.{AreWhole};
ghost use Rattle.nero_maze.specs.Routing.{tree_of};
ghost use Rattle.maze_nets.specs.Nets.{net_points, AreRoutable};
ghost use Rattle.maze_rips.specs.Run.{IsStuck, IsSpent, IsPathPast};
ghost use Rattle.maze_rips.specs.Answers.{AreRipped, IsRefusal};
ghost use Rattle.maze_rips.specs.Progress.{problem_of, IsTask, IsUnderWay};

use crate::error::RipError;
use crate::rip::{PointRip, Ripped};
use crate::work::{Stuck, Task, Work, begin_work, end_work, finish_all, point_of};
use grid_core::Grid;
use maze_nets::{NetPoints, Ties, net_order};
use std::alloc::{AllocError, Global};

/// How many choices by chance are tried, and how many rips each is given at most.
const TRIALS: u32 = 16;

const TRIAL_RIPS: u32 = 25;

/// The paths of the net are torn out that is first in the way of a stuck one; false, and nothing changes, where no way leads through
/// the trees of other nets either.
fn rip(work: &mut Work, task: &Task, stuck: Stuck) -> Result<bool, AllocError>
    requires task { IsTask task.now }
    requires under_way { IsUnderWay task.now work.old }
    requires stuck { (q : AnyNode) × IsStuck (problem_of task.now) work.old.rips.items (tree_of work.old.router) stuck.net stuck.point q }
    ensures under_way { IfOk result (λ done. done ≡ true → IsUnderWay task.now work.new) }
    ensures more { IfOk result (λ done. done ≡ true → length work.new.rips.items ≡ length work.old.rips.items + 1) }
    ensures same { IfOk result (λ done. done ≡ false → work.new ≡ work.old) }
    ensures closed { IfOk result (λ done. done ≡ false → (q : AnyNode)
        → IsStuck (problem_of task.now) work.old.rips.items (tree_of work.old.router) stuck.net stuck.point q
        → (path : List AnyNode) → IsPathPast (problem_of task.now) (tree_of work.old.router) stuck.net q path → ⊥) }
{
    let target = point_of(task, stuck.net, stuck.point);
    let Some(torn) = work.router.blocker(stuck.net, target) else {
        return Ok(false);
    };
    work.rips.push(PointRip {
        net: stuck.net,
        point: stuck.point,
        torn,
    })?;
    work.router.avoid(torn);
    work.router.take_out(torn);
    work.paths.tear(torn as usize);
    Ok(true)
}

/// All nets get their points, and stuck ones have others torn out, so many times at most.
fn rip_up(
    alloc: Global,
    work: &mut Work,
    task: &Task,
    allowed: u32,
) -> Result<Option<Stuck>, AllocError>
    requires task { IsTask task.now }
    requires under_way { IsUnderWay task.now work.old }
    requires no_rips { work.old.rips.items ≡ [] }
    ensures under_way { IfOk result (λ _. IsUnderWay task.now work.new) }
    ensures few { IfOk result (λ _. length work.new.rips.items ≤ allowed) }
    ensures whole { IfOk result (λ r. IfNone r (AreWhole (net_points task.now.nets.now) (length task.now.nets.now) (tree_of work.new.router))) }
    ensures spent { IfOk result (λ r. IfSome r (λ s. IsSpent (problem_of task.now) allowed work.new.rips.items (tree_of work.new.router) s.net s.point)) }
{
    while work.rips.len() < allowed as usize {
        let Some(stuck) = finish_all(alloc, work, task)? else {
            return Ok(None);
        };
        if !rip(work, task, stuck)? {
            return Ok(Some(stuck));
        }
    }
    finish_all(alloc, work, task)
}

/// The routes of nets, where paths of one cost are chosen so.
fn attempt(alloc: Global, task: &Task, allowed: u32, ties: Ties) -> Result<Ripped, RipError>
    requires task { IsTask task.now }
    requires few_nodes { nodes task.now.grid < 4294967295 }
    ensures size { IfOk result (λ r. length r.routes ≡ length task.now.nets.now) }
    ensures routed { IfOk result (λ r. AreRipped task.now.grid task.now.nets.now allowed r.rips.items (tree_in r.routes)) }
    ensures refused { IfErr result (λ e. IsRefusal task.now.grid task.now.nets.now allowed e) }
{
    let mut work = begin_work(alloc, task, ties)?;
    let stuck = rip_up(alloc, &mut work, task, allowed)?;
    let ripped = end_work(alloc, work)?;
    match stuck {
        None => Ok(ripped),
        Some(stuck) => Err(RipError::NoPath {
            net: stuck.net,
            point: stuck.point,
            so_far: ripped.routes,
            rips: ripped.rips,
        }),
    }
}

/// The routes that come of few rips, where paths of one cost are chosen so; none where they don't.
fn trial(alloc: Global, task: &Task, allowed: u32, ties: Ties) -> Result<Option<Ripped>, AllocError>
    requires task { IsTask task.now }
    requires few_nodes { nodes task.now.grid < 4294967295 }
    ensures size { IfOk result (λ found. IfSome found (λ r. length r.routes ≡ length task.now.nets.now)) }
    ensures routed { IfOk result (λ found. IfSome found (λ r.
        AreRipped task.now.grid task.now.nets.now allowed r.rips.items (tree_in r.routes))) }
{
    let mut work = begin_work(alloc, task, ties)?;
    let stuck = rip_up(alloc, &mut work, task, allowed.min(TRIAL_RIPS))?;
    match stuck {
        Some(_) => Ok(None),
        None => Ok(Some(end_work(alloc, work)?)),
    }
}

/// The routes of the first of several trials that all nets are routed in, where paths of one cost are chosen by chance.
fn trials(alloc: Global, task: &Task, allowed: u32) -> Result<Option<Ripped>, AllocError>
    requires task { IsTask task.now }
    requires few_nodes { nodes task.now.grid < 4294967295 }
    ensures size { IfOk result (λ found. IfSome found (λ r. length r.routes ≡ length task.now.nets.now)) }
    ensures routed { IfOk result (λ found. IfSome found (λ r.
        AreRipped task.now.grid task.now.nets.now allowed r.rips.items (tree_in r.routes))) }
{
    for seed in 0..TRIALS {
        let found = trial(alloc, task, allowed, Ties::Drawn(seed))?;
        if found.is_some() {
            return Ok(found);
        }
    }
    Ok(None)
}

/// Whether a net is stuck, and might not be if other paths were chosen: all rips were made that are allowed.
fn is_stuck(ripped: &Result<Ripped, RipError>, allowed: u32) -> bool {
    match ripped {
        Err(RipError::NoPath { rips, .. }) => rips.len() >= allowed as usize,
        _ => false,
    }
}

/// The routes of nets over a grid as of `route_nets_with_rips`, where paths of one cost are chosen so, and no others are tried.
pub fn route_nets_by(
    alloc: Global,
    grid: Grid,
    nets: &[NetPoints],
    allowed: u32,
    ties: Ties,
) -> Result<Ripped, RipError>
    requires few_nodes { nodes grid < 4294967295 }
    requires few { length nets.now < 4294967295 }
    requires routable { AreRoutable grid nets.now }
    ensures size { IfOk result (λ r. length r.routes ≡ length nets.now) }
    ensures routed { IfOk result (λ r. AreRipped grid nets.now allowed r.rips.items (tree_in r.routes)) }
    ensures refused { IfErr result (λ e. IsRefusal grid nets.now allowed e) }
{
    let order = net_order(alloc, nets)?;
    let task = Task {
        grid,
        nets,
        order: &order,
    };
    attempt(alloc, &task, allowed, ties)
}

/// The routes of nets over a grid: by half perimeter, then by number, each by least paths from its first point on, beside all other trees
/// and what is reserved for others. Where a net is stuck, a least path is sought through the trees of other nets, and the paths of the first
/// net on it are torn out; then the stuck net goes on until it is whole, and then the first in the order that isn't. A net's port and its
/// terminals are its points; reserved for it are these and the nodes above its terminals. Refused exactly where a net is stuck so and as
/// many rips were made as are allowed, or no path leads there through all other trees either. Which of several least paths is taken is free;
/// where all rips were made, others are tried, some with few rips; the last answer stands. Takes 19 bytes a node, and memory for the routes
/// and the rips.
pub fn route_nets_with_rips(
    alloc: Global,
    grid: Grid,
    nets: &[NetPoints],
    allowed: u32,
) -> Result<Ripped, RipError>
    requires few_nodes { nodes grid < 4294967295 }
    requires few { length nets.now < 4294967295 }
    requires routable { AreRoutable grid nets.now }
    ensures size { IfOk result (λ r. length r.routes ≡ length nets.now) }
    ensures routed { IfOk result (λ r. AreRipped grid nets.now allowed r.rips.items (tree_in r.routes)) }
    ensures refused { IfErr result (λ e. IsRefusal grid nets.now allowed e) }
{
    let order = net_order(alloc, nets)?;
    let task = Task {
        grid,
        nets,
        order: &order,
    };
    let first = attempt(alloc, &task, allowed, Ties::High);
    if !is_stuck(&first, allowed) {
        return first;
    }
    if let Some(ripped) = trials(alloc, &task, allowed)? {
        return Ok(ripped);
    }
    let second = attempt(alloc, &task, allowed, Ties::Apart);
    if !is_stuck(&second, allowed) {
        return second;
    }
    attempt(alloc, &task, allowed, Ties::First)
}
