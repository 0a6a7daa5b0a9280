// Nets of random terminals.
ghost use Rattle.std.specs.Prelude.{◌≡◌, ◌<◌, ◌*◌, None, map, length, IfOk};
ghost use Rattle.std.specs.List.{All};
ghost use Rattle.maze_nets.specs.Nets.{AreRoutable};
ghost use Rattle.maze_probe.specs.Spots.{terminal_at, AreNetsOn};

use crate::places::places;
use crate::trial::Trial;
use grid_core::Node;
use maze_nets::NetPoints;
use std::alloc::{AllocError, Global};

/// A net with terminals at these places of the lowest metal.
fn net_on(alloc: Global, columns: u32, places: &[u32]) -> Result<NetPoints, AllocError>
    requires { 0 < columns }
    ensures port { IfOk result (λ net. net.port ≡ None) }
    ensures terminals { IfOk result (λ net. net.terminals.items ≡ map (terminal_at columns) places.now) }
{
    let mut terminals = Vec::new(alloc);
    for place in places {
        terminals.push(Node {
            metal: 2,
            column: *place % columns,
            row: *place / columns,
        })?;
    }
    Ok(NetPoints {
        port: None,
        terminals,
    })
}

/// The nets of a trial with terminals at these places, one net behind another.
fn nets_on(alloc: Global, trial: &Trial, places: &[u32]) -> Result<Vec<NetPoints>, AllocError>
    requires { length places.now ≡ trial.now.nets * trial.now.pins }
    ensures many { IfOk result (λ nets. length nets.items ≡ trial.now.nets) }
    ensures on { IfOk result (λ nets. AreNetsOn trial.now.grid.columns trial.now.pins places.now nets.items) }
{
    let pins = trial.pins as usize;
    let mut nets = Vec::new(alloc);
    for at in 0..trial.nets as usize {
        let own = &places[at * pins..at * pins + pins];
        nets.push(net_on(alloc, trial.grid.columns, own)?)?;
    }
    Ok(nets)
}

/// The nets of a trial, each with as many terminals as it says: what is reserved for a net is in the grid and for it alone. Takes
/// memory for their points.
pub fn nets(alloc: Global, trial: &Trial) -> Result<Vec<NetPoints>, AllocError>
    ensures many { IfOk result (λ nets. length nets.items ≡ trial.now.nets) }
    ensures sized { IfOk result (λ nets. All (λ net. length net.terminals.items ≡ trial.now.pins) nets.items) }
    ensures routable { IfOk result (λ nets. AreRoutable trial.now.grid nets.items) }
{
    let places = places(alloc, trial.places(), trial.points(), trial.seed)?;
    nets_on(alloc, trial, &places)
}
