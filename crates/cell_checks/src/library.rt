// Libraries of cells that have passed their checks.
ghost use Rattle.std.specs.Prelude.{◌≡◌, false};
ghost use Rattle.cell_checks.specs.Checked.{library_of, IsChecked};

use cell_model::Cell;
use std::marker::Model;

/// The cells of a library in the order of their list. Each has passed its checks, but for that of columns, their names are
/// different, and the usable ones have their arcs.
#[derive(Drop)]
pub struct Library {
    cells: Vec<Cell>,
}

impl Model for Library {
    ghost use Rattle.std.specs.Prelude.{false};
    ghost use Rattle.std.specs.Coded.{codes};
    ghost use Rattle.cell_model.specs.Library.{Library as Meaning};
    ghost use Rattle.machine_core.specs.Code.{expression_code};

    ghost Value = { Meaning };

    ghost coded = { Prim.hlevel (codes, expression_code (Prim.hlevel codes)) };

    ghost use Rattle.cell_checks.specs.Checked.{library_of, IsChecked};

    ghost view = { λ a. library_of a.cells.items };

    ghost invariant = { λ a. IsChecked false (library_of a.cells.items) };
}

impl Library {
    /// The library of these cells. Takes no memory.
    pub fn new(cells: Vec<Cell>) -> Self
        requires { IsChecked false (library_of cells.items) }
        ensures { result ≡ library_of cells.items }
    {
        Library { cells }
    }

    /// The cells, in the order of their list. Takes no memory.
    pub fn cells(&self) -> &[Cell]
        ensures value { library_of result.now ≡ self.now }
        ensures checked { IsChecked false self.now }
    {
        &self.cells
    }
}
