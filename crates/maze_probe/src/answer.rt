// What came of a trial, as a line.
use crate::nets::nets;
use crate::trial::Trial;
use anyhow::{Result, bail};
use grid_core::Routes;
use maze_nets::{RouteError, route_nets};
use std::alloc::Global;
use std::io::Print;

/// How many steps and how many vias all paths have together.
fn lengths(routes: &Routes) -> (u64, u64) {
    let mut steps = 0u64;
    let mut vias = 0u64;
    for net in 0..routes.len() {
        if let Some(tree) = routes.tree(net) {
            for path in &tree.paths {
                for at in 1..path.len() {
                    if path[at - 1].metal == path[at].metal {
                        steps = steps.saturating_add(1);
                    } else {
                        vias = vias.saturating_add(1);
                    }
                }
            }
        }
    }
    (steps, vias)
}

/// Routes the nets of a trial, and prints its line.
pub fn print(rt: &impl Print, alloc: Global, trial: &Trial) -> Result<()> {
    let nets = nets(alloc, trial)?;
    let (nodes, points) = (trial.nodes(), trial.points());
    print!(rt; "nodes {nodes} nets {} points {points} ", nets.len())?;
    let (steps, vias) = match route_nets(alloc, trial.grid, &nets) {
        Ok(routes) => {
            print!(rt; "routed all")?;
            lengths(&routes)
        }
        Err(RouteError::NoPath { net, point, so_far }) => {
            print!(rt; "stuck at {net} {point}")?;
            lengths(&so_far)
        }
        Err(RouteError::Memory) => bail!("out of memory"),
    };
    println!(rt; " steps {steps} vias {vias}")?;
    Ok(())
}
