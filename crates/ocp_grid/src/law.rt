// What is true of the points of nets in rows.
ghost use Rattle.ocp_grid.specs.Law.{PlacementsAreInRows, PointsAreApart};

/// What is reserved for a net on the grid over rows is its own, and the points of a net differ.
pub fn points_are_apart()
    ensures { PointsAreApart }
{}

/// A placement in rows stands in rows as drawing and routing ask.
pub fn placements_are_in_rows()
    ensures { PlacementsAreInRows }
{}
