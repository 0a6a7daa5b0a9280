// The files of a library are at most one library, and then no refusal of it is right.
ghost use Rattle.flow_run.specs.Same.{TextsAreSame};
ghost use Rattle.flow_run.specs.OneLibrary.{SaidIsNeverUnsaid, CellIsNeverRefused, LibraryIsNeverRefused};
ghost use Rattle.flow_run.specs.OneLibrary.{LibrariesAreSame, LibrariesCoverTheSame, CoveredLacksNothing};
ghost use Rattle.flow_run.specs.OneRefusal.{CellHasOneRefusal, LibraryHasOneRefusal};

use vbe_laws::{cells_are_the_same, machines_are_the_same, machines_do_the_same};

/// Two readings of a cell's text are the same, but for the order of equations.
pub fn texts_are_same()
    ensures { TextsAreSame }
{
    cells_are_the_same();
    machines_do_the_same();
}

/// What two files say as a cell has neither a fault nor a limit in one of them; and what passes its checks fails none of them.
pub fn cell_is_never_refused()
    ensures said { SaidIsNeverUnsaid }
    ensures cell { CellIsNeverRefused }
{
    texts_are_same();
}

/// The files of a library have no cause to refuse them.
pub fn library_is_never_refused()
    ensures { LibraryIsNeverRefused }
{
    texts_are_same();
}

/// The two files of a cell have at most one refusal, and so have the files of a library.
pub fn one_refusal()
    ensures cell { CellHasOneRefusal }
    ensures library { LibraryHasOneRefusal }
{
    texts_are_same();
}

/// Two libraries of the same files have the same cells, but for how their functions are written; so the one has usable cells of those
/// kinds of which the other has.
pub fn libraries_are_same()
    ensures cells { LibrariesAreSame }
    ensures covers { LibrariesCoverTheSame }
{
    texts_are_same();
}

/// Where a library of these files covers a machine of this source, each library of the files has a usable cell of each kind that any
/// machine of the source needs.
pub fn covered_lacks_nothing()
    ensures { CoveredLacksNothing }
{
    machines_are_the_same();
    libraries_are_same();
}
