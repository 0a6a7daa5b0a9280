// What bounds say of covers.
ghost use Rattle.boog_area.specs.Covers.{CellBoundsAreLeast};

/// No cover of a tree by usable cells of a library has less area than the bound of its root, and no cover of all trees less than the bounds of
/// the roots together, whatever made the bounds.
pub fn cell_bounds_are_least()
    ensures { CellBoundsAreLeast }
{}
