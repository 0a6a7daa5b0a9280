// An order of the classes of a netlist without rings.
ghost use Rattle.std.specs.Prelude.{IfOk};
ghost use Rattle.net_core.specs.Checks.{Fits, Passes};
ghost use Rattle.net_core.specs.Links.{IsClassOrder};

use crate::links::{grouped, inputs, links};
use crate::netlist::Netlist;
use crate::pins::PinTable;
use bit_order::{Order, order};
use std::alloc::{AllocError, Global};

/// The classes of a netlist that passes its checks, in an order in which each stands behind those on which its output pin depends at
/// once. Takes memory and time for each class and for each input pin on which an output pin depends.
pub fn class_order(
    alloc: Global,
    netlist: &Netlist,
    table: &PinTable,
) -> Result<Vec<u32>, AllocError>
    requires fits { Fits netlist.now table.now }
    requires passes { Passes table.now netlist.now }
    ensures { IfOk result (λ order. IsClassOrder table.now netlist.now order.items) }
{
    let links = links(alloc, netlist, table)?;
    let groups = grouped(alloc, netlist.count(), &links)?;
    let inputs = inputs(alloc, &groups)?;
    match order(alloc, &inputs)? {
        Order::Sorted(order) => Ok(order),
        Order::Ring(_) => unreachable!(),
    }
}
