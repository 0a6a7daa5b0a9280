// What an order of nodes rules out.
ghost use Rattle.bit_order.specs.Order.{SortedLeavesNoRing};

/// Where there is an order there is no ring, and no other way back from a node to itself.
pub fn an_order_leaves_no_ring()
    ensures { SortedLeavesNoRing }
{}
