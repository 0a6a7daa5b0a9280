// What bounds say of covers.
ghost use Rattle.boog_tree.specs.Bounds.{BoundsAreLeast};

/// No cover of a tree has less area than the bound of its root, whatever made the bounds.
pub fn bounds_are_least()
    ensures { BoundsAreLeast }
{}
