// The rips of a trial, and what stood when each was made, as lines.
ghost use Rattle.std.specs.Prelude.{◌<◌, length};
ghost use Rattle.maze_nets.specs.Nets.{AreRoutable};

use crate::nets::nets;
use crate::trial::Trial;
use anyhow::{Result, bail};
use grid_core::{NetTree, Node, Routes};
use maze_nets::{NetPoints, Ties};
use maze_rips::{PointRip, RipError, route_nets_by};
use std::alloc::Global;
use std::io::Print;

/// Prints a word, the number of a net and nodes.
fn print_nodes(rt: &impl Print, word: &str, net: usize, nodes: &[Node]) -> Result<()> {
    print!(rt; "{word} {net}")?;
    for node in nodes {
        print!(rt; " {} {} {}", node.metal, node.column, node.row)?;
    }
    println!(rt; "")?;
    Ok(())
}

/// Prints the points of each net.
fn print_nets(rt: &impl Print, nets: &[NetPoints]) -> Result<()> {
    for (net, points) in nets.iter().enumerate() {
        print_nodes(rt, "net", net, &points.terminals)?;
    }
    Ok(())
}

/// Prints the paths of a net, each from its end back to the tree that it joined.
fn print_paths(rt: &impl Print, net: usize, tree: &NetTree) -> Result<()> {
    for path in &tree.paths {
        print_nodes(rt, "path", net, path)?;
    }
    Ok(())
}

/// Prints the paths of all nets.
fn print_routes(rt: &impl Print, routes: &Routes) -> Result<()> {
    for net in 0..routes.len() {
        if let Some(tree) = routes.tree(net) {
            print_paths(rt, net, tree)?;
        }
    }
    Ok(())
}

/// Prints the last rip, if there is one.
fn print_last(rt: &impl Print, rips: &[PointRip]) -> Result<()> {
    if let Some(rip) = rips.last() {
        println!(rt; "rip {} {} {}", rip.net, rip.point, rip.torn)?;
    }
    Ok(())
}

/// Routes nets with so many rips at most, and prints the last rip, all paths, and which net is stuck, if any; or only that the last rip
/// allowed is of no help. Whether one more may be is given.
fn print_run(
    rt: &impl Print,
    alloc: Global,
    trial: &Trial,
    nets: &[NetPoints],
    allowed: u32,
) -> Result<bool>
    requires few { length nets.now < 4294967295 }
    requires routable { AreRoutable trial.now.grid nets.now }
{
    match route_nets_by(alloc, trial.grid, nets, allowed, Ties::Drawn(trial.seed)) {
        Ok(routed) => {
            print_last(rt, &routed.rips)?;
            print_routes(rt, &routed.routes)?;
            println!(rt; "routed all")?;
            Ok(false)
        }
        Err(
            RipError::NoPath {
                net,
                point,
                so_far,
                rips,
            },
        ) => {
            if rips.len() < allowed as usize {
                println!(rt; "no rip helps")?;
                return Ok(false);
            }
            print_last(rt, &rips)?;
            print_routes(rt, &so_far)?;
            println!(rt; "stuck at {net} {point}")?;
            Ok(true)
        }
        Err(RipError::Memory) => bail!("out of memory"),
    }
}

/// Routes the nets of a trial with no rip, one, two and so on, up to so many, as long as that leads on. Prints the points of the nets, and
/// after each of these runs its last rip and all its paths: so what stood when each rip was made.
pub fn print(rt: &impl Print, alloc: Global, trial: &Trial, rips: u32) -> Result<()> {
    let nets = nets(alloc, trial)?;
    print_nets(rt, &nets)?;
    for allowed in 0..=rips {
        if !print_run(rt, alloc, trial, &nets, allowed)? {
            return Ok(());
        }
    }
    Ok(())
}
