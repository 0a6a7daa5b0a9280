// The order in which nets are routed.
ghost use Rattle.std.specs.Prelude.{◌≡◌, ◌<◌, IfOk, length};
ghost use Rattle.grid_core.specs.Trees.{IsNetOrder};
ghost use Rattle.maze_nets.specs.Nets.{half_perimeter};

use crate::points::{NetPoints, half_perimeter};
use std::alloc::{AllocError, Global};

/// The numbers of nets in the order in which they are routed: by half perimeter, then by number. Takes memory for
/// each net.
pub fn net_order(alloc: Global, nets: &[NetPoints]) -> Result<Vec<u32>, AllocError>
    requires { length nets.now < 4294967295 }
    ensures { IfOk result (λ order. IsNetOrder (half_perimeter nets.now) (length nets.now) order.items) }
{
    let mut ranks: Vec<(u64, u32)> = Vec::new(alloc);
    for (net, points) in nets.iter().enumerate() {
        ranks.push((half_perimeter(points), net as u32))?;
    }
    ranks.sort()?;
    let mut order = Vec::new(alloc);
    for rank in &ranks {
        order.push(rank.1)?;
    }
    Ok(order)
}
