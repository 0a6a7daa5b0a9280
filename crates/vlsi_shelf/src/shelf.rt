ghost use Rattle.std.specs.Prelude.{◌≡◌, IfOk, OnOk, IsErrOf};
ghost use Rattle.vlsi_shelf.specs.declared.shelf.ShelfError.TheVariants.{Memory, Missing, Failed};
ghost use Rattle.vlsi_shelf.specs.Counts.{Rose, NoneFalls};
ghost use Rattle.vlsi_shelf.specs.Seen.{ShelfSeen};
ghost use Rattle.vlsi_shelf.specs.Shelf.{Reads, Lacks, Writes, SameBut};

use std::alloc::{AllocError, AllocFailed, Global};
use thiserror::Error;
use vlsi_base::{FileBytes, FileName};

/// Why a call on a shelf gave no answer.
#[derive(Clone, Copy, Debug, PartialEq, Eq, Error)]
pub enum ShelfError {
    /// Memory ran out.
    #[error("out of memory")]
    Memory,
    /// There is no file of this name.
    #[error("no such file")]
    Missing,
    /// The shelf itself failed, and has counted it.
    #[error("the file can't be read or written")]
    Failed,
}

impl From<AllocError> for ShelfError {
    ghost from_gives = { λ _ e. e ≡ Memory };

    fn from(_: AllocError) -> Self {
        ShelfError::Memory
    }
}

impl<T: Drop> From<AllocFailed<T>> for ShelfError {
    ghost from_gives = { λ _ e. e ≡ Memory };

    fn from(_: AllocFailed<T>) -> Self {
        ShelfError::Memory
    }
}

/// Files by name: all that a program reads and writes goes through one.
pub trait Shelf {
    /// Its files, where it tells them: a finite map from names to contents; and how often reads and writes have failed, and a
    /// file was asked for that isn't there. No count ever falls.
    ghost seen: { Self → ShelfSeen };

    /// Reads the first `most + 1` bytes of a file, or all if there are fewer, so that a caller sees whether a file is longer
    /// than `most` and never holds more of it. `Missing`: there is no such file. `Failed`: it can't be read. The files stay
    /// as they are whatever the answer is. It takes memory for what it answers.
    fn read(&mut self, alloc: Global, name: &FileName, most: u64) -> Result<FileBytes, ShelfError>
        ensures ok { IfOk result (λ bytes. Reads (seen self.old).files name.now most bytes) }
        ensures missing { IsErrOf result Missing → Rose (seen self.old).counts.misses (seen self.new).counts.misses }
        ensures lacks { IsErrOf result Missing → Lacks (seen self.old).files name.now }
        ensures failed { IsErrOf result Failed → Rose (seen self.old).counts.read_faults (seen self.new).counts.read_faults }
        ensures same { (seen self.new).files ≡ (seen self.old).files }
        ensures counts { NoneFalls (seen self.old).counts (seen self.new).counts };

    /// Makes these bytes the contents of a file, which need not be there before. No other file changes. It never answers
    /// `Missing`; after `Failed` nothing is known of this one file.
    fn write(&mut self, alloc: Global, name: &FileName, bytes: &[u8]) -> Result<(), ShelfError>
        ensures ok { OnOk result (Writes (seen self.old).files (seen self.new).files name.now bytes.now) }
        ensures memory { IsErrOf result Memory → (seen self.new).files ≡ (seen self.old).files }
        ensures never_missing { IsErrOf result Missing → ⊥ }
        ensures failed { IsErrOf result Failed → Rose (seen self.old).counts.write_faults (seen self.new).counts.write_faults }
        ensures others { IsErrOf result Failed → SameBut (seen self.old).files (seen self.new).files name.now }
        ensures counts { NoneFalls (seen self.old).counts (seen self.new).counts };
}
