// Laws: what follows of a library that is read. They cost nothing when they are called.
ghost use Rattle.cell_lib.specs.Laws.{LibraryPasses, LibraryNeedsNoTracks};

/// Each cell of a library that is read has passed its checks, those for tracks among them where they were asked for, and each usable
/// one has its arcs; and a library with these checks is one without them.
pub fn library_law()
    ensures passes { LibraryPasses }
    ensures plain { LibraryNeedsNoTracks }
{}
