// An order of all nodes.
ghost use Rattle.std.specs.Prelude.{◌<◌, ◌^◌, length, map, IfOk};
ghost use Rattle.std.specs.List.{All};
ghost use Rattle.bit_order.specs.Order.{IsOrderOf};

use crate::outcome::Order;
use crate::walk::Walk;
use std::alloc::{AllocError, Global};

/// An order of the nodes, from 0 up to the number of lists, where `reads[k]` are the nodes that node k reads: each node
/// comes behind all that it reads. Where nodes read each other in a ring there is no such order, and the ring is given.
/// Takes time for each node and each entry of the lists, and memory for each node.
pub fn order(alloc: Global, reads: &[Vec<u32>]) -> Result<Order, AllocError>
    requires inside { All (λ nodes. All (λ node. node < length reads.now) nodes.items) reads.now }
    requires few { length reads.now < 2 ^ 32 }
    ensures { IfOk result (λ o. IsOrderOf (map (λ nodes. nodes.items) reads.now) o) }
{
    let mut walk = Walk::start(alloc, reads.len())?;
    for root in 0..reads.len() {
        walk.begin(root as u32)?;
        match walk.follow(reads)? {
            None => {}
            Some(first) => return Ok(Order::Ring(walk.ring(alloc, first)?)),
        }
    }
    Ok(Order::Sorted(walk.into_sorted()))
}
