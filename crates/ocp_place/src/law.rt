// What is true of cells that may have tracks over them, and of netlists that may be drawn.
ghost use Rattle.ocp_place.specs.Law.{CheckedCellsAreClean, RightMayBeDrawn};

/// A usable cell that has passed its checks, that of columns apart, is clean.
pub fn checked_cells_are_clean()
    ensures { CheckedCellsAreClean }
{}

/// A netlist that is right for some machine may be drawn, where its instances have the pins of their cells.
pub fn right_may_be_drawn()
    ensures { RightMayBeDrawn }
{}
