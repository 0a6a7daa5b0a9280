// The shelf over the operating system's files, and the sink over standard output. They tell nothing of what they hold.
ghost use Rattle.std.specs.Prelude.{◌≡◌, ◌≤◌, ◌+◌, None, OnErr, IsErrOf, IfOk, length};
ghost use Rattle.vlsi_shelf.specs.declared.shelf.ShelfError.TheVariants.{Missing};

use crate::{Shelf, ShelfError, Sink, SinkError};
use std::alloc::Global;
use std::fs;
use std::io::{ErrorKind, Read, Write};
use std::rt::Files;
use vlsi_base::{FileBytes, FileName};

// How many bytes one read asks for at the most.
const CHUNK: usize = 4096;

/// The operating system's files. A name is a path, and one that isn't UTF-8 is the name of no file. A call that is
/// interrupted is made again.
#[derive(Drop)]
pub struct DirShelf<'a, R: Files> {
    files: &'a R,
    read_faults: u64,
    write_faults: u64,
    misses: u64,
}

// How many bytes the next read asks for, where this many are still wanted.
fn next_part(wanted: u64) -> usize
    ensures chunk { result ≤ CHUNK }
    ensures most { result ≤ wanted }
{
    if wanted < CHUNK as u64 {
        wanted as usize
    } else {
        CHUNK
    }
}

// The first bytes of what a reader gives, one more than `most` at the most. A read that gives nothing is the end.
fn first_bytes<F: Read>(alloc: Global, file: &mut F, most: u64) -> Result<Vec<u8>, ShelfError>
    ensures { IsErrOf result Missing → ⊥ }
{
    let mut bytes = Vec::new(alloc);
    let mut chunk = [0u8; CHUNK];
    for _ in 0..u64::MAX {
        let have = bytes.len() as u64;
        if have > most {
            return Ok(bytes);
        }
        let part = next_part((most - have).saturating_add(1));
        match file.read(&mut chunk[..part]) {
            Ok(0) => return Ok(bytes),
            Ok(count) => bytes.extend_from_slice(&chunk[..count])?,
            Err(error) => {
                if error.kind() != ErrorKind::Interrupted {
                    return Err(ShelfError::Failed);
                }
            }
        }
    }
    Err(ShelfError::Failed)
}

// Whether all bytes were written. A write that takes nothing is a failure.
fn all_bytes<F: Write>(file: &mut F, bytes: &[u8]) -> bool {
    let mut left = bytes;
    for _ in 0..u64::MAX {
        if left.is_empty() {
            return file.flush().is_ok();
        }
        match file.write(left) {
            Ok(0) => return false,
            Ok(count) => left = &left[count..],
            Err(error) => {
                if error.kind() != ErrorKind::Interrupted {
                    return false;
                }
            }
        }
    }
    false
}

impl<'a, R: Files> DirShelf<'a, R> {
    /// The files that the runtime reaches, with nothing counted yet. It takes no memory.
    pub fn begin(files: &'a R) -> Self {
        DirShelf {
            files,
            read_faults: 0,
            write_faults: 0,
            misses: 0,
        }
    }
}

impl<R: Files> Shelf for DirShelf<'_, R> {
    ghost seen = { λ s. record {
      files = None;
      counts = record { read_faults = s.read_faults; write_faults = s.write_faults; misses = s.misses };
    } };

    fn read(&mut self, alloc: Global, name: &FileName, most: u64) -> Result<FileBytes, ShelfError> {
        let Ok(path) = str::from_utf8(name.as_bytes()) else {
            self.misses = self.misses.saturating_add(1);
            return Err(ShelfError::Missing);
        };
        match fs::open(self.files, path) {
            Ok(mut file) => match first_bytes(alloc, &mut file, most) {
                Ok(bytes) => Ok(FileBytes::new(bytes)),
                Err(ShelfError::Failed) => {
                    self.read_faults = self.read_faults.saturating_add(1);
                    Err(ShelfError::Failed)
                }
                Err(error) => Err(error),
            },
            Err(error) => {
                if error.kind() == ErrorKind::NotFound {
                    self.misses = self.misses.saturating_add(1);
                    Err(ShelfError::Missing)
                } else {
                    self.read_faults = self.read_faults.saturating_add(1);
                    Err(ShelfError::Failed)
                }
            }
        }
    }

    fn write(&mut self, _: Global, name: &FileName, bytes: &[u8]) -> Result<(), ShelfError> {
        let written = match str::from_utf8(name.as_bytes()) {
            Ok(path) => match fs::create(self.files, path) {
                Ok(mut file) => all_bytes(&mut file, bytes),
                Err(_) => false,
            },
            Err(_) => false,
        };
        if written {
            return Ok(());
        }
        self.write_faults = self.write_faults.saturating_add(1);
        Err(ShelfError::Failed)
    }
}

/// Standard output. A call that is interrupted is made again.
#[derive(Drop)]
pub struct OutSink<'a, P: Print> {
    out: &'a P,
    faults: u64,
}

impl<'a, P: Print> OutSink<'a, P> {
    /// The runtime's standard output, with no fault counted yet. It takes no memory.
    pub fn begin(out: &'a P) -> Self {
        OutSink { out, faults: 0 }
    }
}

// Whether all bytes were printed. A write that takes nothing is a failure.
fn print_all<P: Print>(out: &P, bytes: &[u8]) -> bool {
    let mut left = bytes;
    for _ in 0..u64::MAX {
        if left.is_empty() {
            return true;
        }
        match out.write_some(left) {
            Ok(0) => return false,
            Ok(count) => left = &left[count..],
            Err(error) => {
                if error.kind() != ErrorKind::Interrupted {
                    return false;
                }
            }
        }
    }
    false
}

impl<P: Print> Sink for OutSink<'_, P> {
    ghost seen = { λ s. record { told = None; faults = s.faults } };

    fn put(&mut self, bytes: &[u8]) -> Result<(), SinkError> {
        if print_all(self.out, bytes) {
            return Ok(());
        }
        self.faults = self.faults.saturating_add(1);
        Err(SinkError::Failed)
    }
}
