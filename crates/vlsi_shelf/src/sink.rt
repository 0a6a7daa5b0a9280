ghost use Rattle.std.specs.Prelude.{◌≡◌, ◌≤◌, OnOk, IsErrOf};
ghost use Rattle.vlsi_shelf.specs.declared.sink.SinkError.TheVariants.{Memory, Failed};
ghost use Rattle.vlsi_shelf.specs.Counts.{Rose};
ghost use Rattle.vlsi_shelf.specs.Seen.{SinkSeen};
ghost use Rattle.vlsi_shelf.specs.Sink.{Puts, PutsPart};

use std::alloc::{AllocError, AllocFailed};
use thiserror::Error;

/// Why a put didn't go through.
#[derive(Clone, Copy, Debug, PartialEq, Eq, Error)]
pub enum SinkError {
    /// Memory ran out.
    #[error("out of memory")]
    Memory,
    /// The sink itself failed, and has counted it.
    #[error("the output can't be written")]
    Failed,
}

impl From<AllocError> for SinkError {
    ghost from_gives = { λ _ e. e ≡ Memory };

    fn from(_: AllocError) -> Self {
        SinkError::Memory
    }
}

impl<T: Drop> From<AllocFailed<T>> for SinkError {
    ghost from_gives = { λ _ e. e ≡ Memory };

    fn from(_: AllocFailed<T>) -> Self {
        SinkError::Memory
    }
}

/// Where a program prints.
pub trait Sink {
    /// The bytes that were put so far, where it tells them, and how often it has failed. The count never falls.
    ghost seen: { Self → SinkSeen };

    /// Puts bytes behind those so far. After `Failed` some first part of them was put, after `Memory` none.
    fn put(&mut self, bytes: &[u8]) -> Result<(), SinkError>
        ensures ok { OnOk result (Puts (seen self.old).told (seen self.new).told bytes.now) }
        ensures memory { IsErrOf result Memory → (seen self.new).told ≡ (seen self.old).told }
        ensures failed { IsErrOf result Failed → Rose (seen self.old).faults (seen self.new).faults }
        ensures part { IsErrOf result Failed → PutsPart (seen self.old).told (seen self.new).told bytes.now }
        ensures counts { (seen self.old).faults ≤ (seen self.new).faults };
}
