// Nets get their points, one after another.
ghost use Rattle.std.specs.Prelude.{◌≡◌, ◌≢◌, ◌<◌, ◌+◌, ℕ, [], ◌∷◌, ◌++◌, None, Some, true, false, IfOk, IfNone, IfSome, OnOk, length, slice_get};
ghost use Rattle.grid_core.specs.declared.grid.Node.{Node as AnyNode};
ghost use Rattle.grid_core.specs.Numbers.{nodes};
ghost use Rattle.grid_core.specs.Trees.{AreWhole, IsWhole};
ghost use Rattle.nero_maze.specs.Routing.{latest_path, tree_of, AreTrees, NoneFrom};
ghost use Rattle.maze_nets.specs.Nets.{net_points, AreRoutable};
ghost use Rattle.maze_rips.specs.Run.{last_stuck, HasTurn, IsServed, IsStuck};
ghost use Rattle.maze_rips.specs.Paths.{laid, paths_in, HasNow};
ghost use Rattle.maze_rips.specs.Progress.{problem_of, IsTask, IsUnderWay, IsBeginning, IsFinishing};

use crate::paths::Paths;
use crate::rip::{PointRip, Ripped};
use grid_core::{Grid, Node};
use maze_nets::{NetPoints, Ties, router_for};
use nero_maze::Router;
use std::alloc::{AllocError, Global};

/// What is to be routed: a grid, the points of nets, and the order in which these are taken.
#[derive(Clone, Copy)]
pub(crate) struct Task<'n> {
    pub(crate) grid: Grid,
    pub(crate) nets: &'n [NetPoints],
    pub(crate) order: &'n [u32],
}

/// The trees so far, the paths of each of them, and the rips that were made. The first path of a net is its first point alone, so a net
/// has as many paths as it has reached points.
#[derive(Drop)]
pub(crate) struct Work {
    pub(crate) router: Router,
    pub(crate) paths: Paths,
    pub(crate) rips: Vec<PointRip>,
}

/// A net that is stuck, and the number of its point to which no path leads.
#[derive(Clone, Copy, Drop)]
pub(crate) struct Stuck {
    pub(crate) net: u32,
    pub(crate) point: usize,
}

/// No net has a tree yet.
pub(crate) fn begin_work(alloc: Global, task: &Task, ties: Ties) -> Result<Work, AllocError>
    requires task { IsTask task.now }
    requires few_nodes { nodes task.now.grid < 4294967295 }
    ensures begun { IfOk result (λ w. IsUnderWay task.now w) }
    ensures no_rips { IfOk result (λ w. w.rips.items ≡ []) }
{
    let router = router_for(alloc, task.grid, task.nets, ties)?;
    let paths = Paths::none(alloc, task.nets.len())?;
    Ok(Work {
        router,
        paths,
        rips: Vec::new(alloc),
    })
}

/// How many points a net has.
fn count_points(task: &Task, net: u32) -> usize
    requires { net < length task.now.nets.now }
    ensures { result ≡ length (net_points task.now.nets.now net) }
{
    let nets = task.nets;
    nets[net as usize].len()
}

/// The point of a net with this number.
pub(crate) fn point_of(task: &Task, net: u32, at: usize) -> Node
    requires net { net < length task.now.nets.now }
    requires at { at < length (net_points task.now.nets.now net) }
    ensures { slice_get (net_points task.now.nets.now net) at ≡ Some result }
{
    let nets = task.nets;
    nets[net as usize].point(at)
}

/// The path of the router's latest move is kept, as the net's last.
fn keep_latest(alloc: Global, work: &mut Work, net: u32) -> Result<(), AllocError>
    requires { net < length work.old.paths }
    ensures kept { OnOk result (HasNow net (paths_in work.old.paths net ++ latest_path work.old.router.moves ∷ []) work.old.paths work.new.paths) }
    ensures router { work.new.router ≡ work.old.router }
    ensures rips { work.new.rips ≡ work.old.rips }
{
    let path = work.router.last_path(alloc)?;
    work.paths.insert(net as usize, path)
}

/// The net's tree begins at its first point, if it hasn't yet.
fn begin_tree(alloc: Global, work: &mut Work, task: &Task, net: u32) -> Result<(), AllocError>
    requires task { IsTask task.now }
    requires net { net < length task.now.nets.now }
    requires some { 0 < length (net_points task.now.nets.now net) }
    requires under_way { IsBeginning task.now net work.old }
    ensures { OnOk result (IsFinishing task.now net work.old work.new) }
{
    if work.paths.count(net as usize) != 0 {
        return Ok(());
    }
    let first = point_of(task, net, 0);
    work.router.seat(net, first);
    keep_latest(alloc, work, net)
}

/// The net gets its point with this number, if a path leads there.
fn reach(
    alloc: Global,
    work: &mut Work,
    task: &Task,
    net: u32,
    at: usize,
) -> Result<bool, AllocError>
    requires task { IsTask task.now }
    requires net { net < length task.now.nets.now }
    requires at { at < length (net_points task.now.nets.now net) }
    requires under_way { IsBeginning task.now net work.old }
    requires begun { tree_of work.old.router net ≢ None }
    requires reached { length (paths_in work.old.paths net) ≡ at }
    ensures reaches { IfOk result (λ done. done ≡ true → IsFinishing task.now net work.old work.new) }
    ensures reached { IfOk result (λ done. done ≡ true → length (paths_in work.new.paths net) ≡ at + 1) }
    ensures same { IfOk result (λ done. done ≡ false → work.new ≡ work.old) }
    ensures stuck { IfOk result (λ done. done ≡ false → (q : AnyNode)
        × IsStuck (problem_of task.now) work.old.rips.items (tree_of work.old.router) net at q) }
{
    let point = point_of(task, net, at);
    if work.router.connect(net, point).is_err() {
        return Ok(false);
    }
    keep_latest(alloc, work, net)?;
    Ok(true)
}

/// The net gets the points that its tree lacks, in their order; the number of the one to which no path leads, if there is one.
fn finish(
    alloc: Global,
    work: &mut Work,
    task: &Task,
    net: u32,
) -> Result<Option<usize>, AllocError>
    requires task { IsTask task.now }
    requires net { net < length task.now.nets.now }
    requires under_way { IsBeginning task.now net work.old }
    ensures under_way { OnOk result (IsUnderWay task.now work.new) }
    ensures rips { OnOk result (work.new.rips.items ≡ work.old.rips.items) }
    ensures others { OnOk result ((j : ℕ) → j ≢ net → tree_of work.new.router j ≡ tree_of work.old.router j) }
    ensures whole { IfOk result (λ r. IfNone r (IsWhole (net_points task.now.nets.now net) (tree_of work.new.router net))) }
    ensures stuck { IfOk result (λ r. IfSome r (λ at. (q : AnyNode)
        × IsStuck (problem_of task.now) work.new.rips.items (tree_of work.new.router) net at q)) }
{
    let count = count_points(task, net);
    if count == 0 {
        return Ok(None);
    }
    begin_tree(alloc, work, task, net)?;
    for at in work.paths.count(net as usize)..count {
        if !reach(alloc, work, task, net, at)? {
            return Ok(Some(at));
        }
    }
    Ok(None)
}

/// The net for which the last rip was made gets the points that it lacks.
fn finish_last(alloc: Global, work: &mut Work, task: &Task) -> Result<Option<Stuck>, AllocError>
    requires task { IsTask task.now }
    requires under_way { IsUnderWay task.now work.old }
    ensures under_way { OnOk result (IsUnderWay task.now work.new) }
    ensures rips { OnOk result (work.new.rips.items ≡ work.old.rips.items) }
    ensures served { IfOk result (λ r. IfNone r (IsServed (problem_of task.now) (tree_of work.new.router) (last_stuck work.new.rips.items))) }
    ensures stuck { IfOk result (λ r. IfSome r (λ s. (q : AnyNode)
        × IsStuck (problem_of task.now) work.new.rips.items (tree_of work.new.router) s.net s.point q)) }
{
    let Some(rip) = work.rips.last() else {
        return Ok(None);
    };
    let net = rip.net;
    match finish(alloc, work, task, net)? {
        Some(point) => Ok(Some(Stuck { net, point })),
        None => Ok(None),
    }
}

/// All nets get the points that they lack, one net after another: the one for which the last rip was made, then the others in their order,
/// up to the first one that is stuck. Takes memory for the paths.
pub(crate) fn finish_all(
    alloc: Global,
    work: &mut Work,
    task: &Task,
) -> Result<Option<Stuck>, AllocError>
    requires task { IsTask task.now }
    requires under_way { IsUnderWay task.now work.old }
    ensures under_way { OnOk result (IsUnderWay task.now work.new) }
    ensures rips { OnOk result (work.new.rips.items ≡ work.old.rips.items) }
    ensures whole { IfOk result (λ r. IfNone r (AreWhole (net_points task.now.nets.now) (length task.now.nets.now) (tree_of work.new.router))) }
    ensures stuck { IfOk result (λ r. IfSome r (λ s. (q : AnyNode)
        × IsStuck (problem_of task.now) work.new.rips.items (tree_of work.new.router) s.net s.point q)) }
{
    if let Some(stuck) = finish_last(alloc, work, task)? {
        return Ok(Some(stuck));
    }
    for net in task.order {
        if let Some(point) = finish(alloc, work, task, *net)? {
            return Ok(Some(Stuck { net: *net, point }));
        }
    }
    Ok(None)
}

/// The routes of all nets, of the paths that were kept, and the rips that were made. The router goes first, and its memory with it.
pub(crate) fn end_work(alloc: Global, work: Work) -> Result<Ripped, AllocError>
    requires kept { (k : ℕ) → k < length work.paths → paths_in work.paths k ≡ laid (tree_of work.router k) }
    requires only { NoneFrom (length work.paths) work.router }
    ensures trees { IfOk result (λ r. AreTrees (length work.paths) work.router r.routes) }
    ensures rips { IfOk result (λ r. r.rips ≡ work.rips) }
{
    let Work {
        router,
        paths,
        rips,
    } = work;
    drop(router);
    let routes = paths.into_routes(alloc)?;
    Ok(Ripped { routes, rips })
}
