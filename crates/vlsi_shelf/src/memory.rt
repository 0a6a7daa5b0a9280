// A shelf and a sink in memory, whose calls fail by a list.
ghost use Rattle.std.specs.Prelude.{◌≡◌, ◌≤◌, ◌+◌, ◌↔◌, ℕ, [], ◌++◌, take, Some, None, IfOk, OnOk, OnErr, IsTrue, IsErrOf, Contains};
ghost use Rattle.std.specs.FinMap as map;
ghost use Rattle.vlsi_shelf.specs.declared.shelf.ShelfError.TheVariants.{Missing, Failed as ShelfFailed, Memory as ShelfMemory};
ghost use Rattle.vlsi_shelf.specs.declared.sink.SinkError.TheVariants.{Failed as SinkFailed, Memory as SinkMemory};
ghost use Rattle.vlsi_shelf.specs.Counts.{Rose, NoneFalls};
ghost use Rattle.vlsi_shelf.specs.Shelf.{Reads, Lacks, Writes, SameBut};
ghost use Rattle.vlsi_shelf.specs.Sink.{Puts, PutsPart};
ghost use Rattle.vlsi_shelf.specs.Memory.{NextFails, raised, no_counts};

use crate::{CallNumbers, FileMap, Shelf, ShelfError, Sink, SinkError};
use std::alloc::{AllocError, Global};
use std::marker::Model;
use vlsi_base::{FileBytes, FileName};

/// A shelf in memory that tells its files. Its calls of `read` and `write` are counted together from 1, and those whose
/// number is in a list answer `Failed` and change no file. The files and the list stand on the allocators that they came with.
#[derive(Drop)]
pub struct MemShelf {
    files: FileMap,
    failing: CallNumbers,
    calls: u64,
    read_faults: u64,
    write_faults: u64,
    misses: u64,
}

impl Model for MemShelf {
    ghost use Rattle.vlsi_shelf.specs.Memory.{Memory, memory_code};

    ghost Value = { Memory };

    ghost coded = { memory_code };

    ghost view = { λ s. record {
      files = s.files;
      failing = s.failing;
      calls = s.calls;
      counts = record { read_faults = s.read_faults; write_faults = s.write_faults; misses = s.misses };
    } };
}

// The first `most + 1` bytes, or all if there are fewer.
fn first_part(alloc: Global, bytes: &[u8], most: u64) -> Result<FileBytes, AllocError>
    ensures { IfOk result (λ made. made ≡ take (most + 1) bytes.now) }
{
    if (bytes.len() as u64) > most {
        FileBytes::from_bytes(alloc, &bytes[..most as usize + 1])
    } else {
        FileBytes::from_bytes(alloc, bytes)
    }
}

impl MemShelf {
    /// A shelf of these files, on which no call was made yet.
    pub fn begin(files: FileMap, failing: CallNumbers) -> Self
        ensures { result ≡ record { files = files; failing = failing; calls = 0; counts = no_counts } }
    {
        MemShelf {
            files,
            failing,
            calls: 0,
            read_faults: 0,
            write_faults: 0,
            misses: 0,
        }
    }

    /// The files as they are now.
    pub fn files(&self) -> &FileMap
        ensures { result.now ≡ self.now.files }
    {
        &self.files
    }

    // Counts a call, and says whether it is one that fails.
    fn fails(&mut self) -> bool
        ensures answer { IsTrue result ↔ NextFails self.old.failing self.old.calls }
        ensures counted { self.new ≡ record self.old { calls = raised self.old.calls } }
    {
        self.calls = self.calls.saturating_add(1);
        self.failing.contains(self.calls)
    }
}

impl Shelf for MemShelf {
    ghost seen = { λ s. record { files = Some s.files; counts = s.counts } };

    fn read(&mut self, alloc: Global, name: &FileName, most: u64) -> Result<FileBytes, ShelfError>
        ensures ok { IfOk result (λ bytes. Reads (Some self.old.files) name.now most bytes) }
        ensures missing { IsErrOf result Missing → Rose self.old.counts.misses self.new.counts.misses }
        ensures lacks { IsErrOf result Missing → Lacks (Some self.old.files) name.now }
        ensures failed { IsErrOf result ShelfFailed → Rose self.old.counts.read_faults self.new.counts.read_faults }
        ensures same { Some self.new.files ≡ Some self.old.files }
        ensures counts { NoneFalls self.old.counts self.new.counts }
        ensures fails { IsErrOf result ShelfFailed ↔ NextFails self.old.failing self.old.calls }
        ensures counted { self.new.calls ≡ raised self.old.calls }
        ensures listed { self.new.failing ≡ self.old.failing }
    {
        if self.fails() {
            self.read_faults = self.read_faults.saturating_add(1);
            return Err(ShelfError::Failed);
        }
        match self.files.get(name) {
            Some(bytes) => Ok(first_part(alloc, bytes.as_bytes(), most)?),
            None => {
                self.misses = self.misses.saturating_add(1);
                Err(ShelfError::Missing)
            }
        }
    }

    fn write(&mut self, alloc: Global, name: &FileName, bytes: &[u8]) -> Result<(), ShelfError>
        ensures ok { OnOk result (Writes (Some self.old.files) (Some self.new.files) name.now bytes.now) }
        ensures memory { IsErrOf result ShelfMemory → Some self.new.files ≡ Some self.old.files }
        ensures never_missing { IsErrOf result Missing → ⊥ }
        ensures failed { IsErrOf result ShelfFailed → Rose self.old.counts.write_faults self.new.counts.write_faults }
        ensures others { IsErrOf result ShelfFailed → SameBut (Some self.old.files) (Some self.new.files) name.now }
        ensures counts { NoneFalls self.old.counts self.new.counts }
        ensures fails { IsErrOf result ShelfFailed ↔ NextFails self.old.failing self.old.calls }
        // A write that fails changes nothing.
        ensures unchanged { OnErr result (self.new.files ≡ self.old.files) }
        ensures counted { self.new.calls ≡ raised self.old.calls }
        ensures listed { self.new.failing ≡ self.old.failing }
    {
        if self.fails() {
            self.write_faults = self.write_faults.saturating_add(1);
            return Err(ShelfError::Failed);
        }
        let name = name.copy(alloc)?;
        let bytes = FileBytes::from_bytes(alloc, bytes)?;
        self.files.insert(name, bytes)?;
        Ok(())
    }
}

/// A shelf in memory that tells its files and never fails: its counts of faults are 0.
#[derive(Drop)]
pub struct NoFaultShelf {
    files: FileMap,
    misses: u64,
}

impl NoFaultShelf {
    /// A shelf of these files.
    pub fn begin(files: FileMap) -> Self
        ensures files { result.files ≡ files }
        ensures misses { result.misses ≡ 0 }
    {
        NoFaultShelf { files, misses: 0 }
    }

    /// The files as they are now.
    pub fn files(&self) -> &FileMap
        ensures { result.now ≡ self.now.files }
    {
        &self.files
    }
}

impl Shelf for NoFaultShelf {
    ghost seen = { λ s. record {
      files = Some s.files;
      counts = record { read_faults = 0; write_faults = 0; misses = s.misses };
    } };

    fn read(&mut self, alloc: Global, name: &FileName, most: u64) -> Result<FileBytes, ShelfError> {
        match self.files.get(name) {
            Some(bytes) => Ok(first_part(alloc, bytes.as_bytes(), most)?),
            None => {
                self.misses = self.misses.saturating_add(1);
                Err(ShelfError::Missing)
            }
        }
    }

    fn write(&mut self, alloc: Global, name: &FileName, bytes: &[u8]) -> Result<(), ShelfError> {
        let name = name.copy(alloc)?;
        let bytes = FileBytes::from_bytes(alloc, bytes)?;
        self.files.insert(name, bytes)?;
        Ok(())
    }
}

/// A sink in memory that tells its bytes. Puts are counted from 1, and those whose number is in a list answer `Failed` and
/// append nothing.
#[derive(Drop)]
pub struct MemSink {
    bytes: Vec<u8>,
    failing: CallNumbers,
    puts: u64,
    faults: u64,
}

impl Model for MemSink {
    ghost use Rattle.vlsi_shelf.specs.Memory.{Printed, printed_code};

    ghost Value = { Printed };

    ghost coded = { printed_code };

    ghost view = { λ s. record { bytes = s.bytes.items; failing = s.failing; puts = s.puts; faults = s.faults } };
}

impl MemSink {
    /// A sink that has no bytes yet. It takes no memory before the first put.
    pub fn begin(alloc: Global, failing: CallNumbers) -> Self
        ensures { result ≡ record { bytes = []; failing = failing; puts = 0; faults = 0 } }
    {
        MemSink {
            bytes: Vec::new(alloc),
            failing,
            puts: 0,
            faults: 0,
        }
    }

    /// All bytes that were put so far.
    pub fn bytes(&self) -> &[u8]
        ensures { result.now ≡ self.now.bytes }
    {
        &self.bytes
    }
}

impl Sink for MemSink {
    ghost seen = { λ s. record { told = Some s.bytes; faults = s.faults } };

    fn put(&mut self, bytes: &[u8]) -> Result<(), SinkError>
        ensures ok { OnOk result (Puts (Some self.old.bytes) (Some self.new.bytes) bytes.now) }
        ensures memory { IsErrOf result SinkMemory → Some self.new.bytes ≡ Some self.old.bytes }
        ensures failed { IsErrOf result SinkFailed → Rose self.old.faults self.new.faults }
        ensures part { IsErrOf result SinkFailed → PutsPart (Some self.old.bytes) (Some self.new.bytes) bytes.now }
        ensures counts { self.old.faults ≤ self.new.faults }
        ensures fails { IsErrOf result SinkFailed ↔ NextFails self.old.failing self.old.puts }
        // A put that fails appends nothing.
        ensures unchanged { OnErr result (self.new.bytes ≡ self.old.bytes) }
        ensures counted { self.new.puts ≡ raised self.old.puts }
        ensures listed { self.new.failing ≡ self.old.failing }
    {
        self.puts = self.puts.saturating_add(1);
        if self.failing.contains(self.puts) {
            self.faults = self.faults.saturating_add(1);
            return Err(SinkError::Failed);
        }
        self.bytes.extend_from_slice(bytes)?;
        Ok(())
    }
}
