// What is true of routes that grow.
ghost use Rattle.grid_core.specs.Trees.{RoutesBegin, RoutesGrow};

/// Routes grow net by net and path by path: what a router adds over free nodes keeps the trees of all nets apart.
pub fn routes_grow()
    ensures begins { RoutesBegin }
    ensures grows { RoutesGrow }
{}
