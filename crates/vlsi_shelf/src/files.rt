// Files in memory: a log of writes, the newest first, seen as the map from each name to its newest contents.
ghost use Rattle.std.specs.Prelude.{◌≡◌, ℕ, List, Option, option_map, IfOk, IsTrue, ◌↔◌, Contains, OnOk, OnErr};
ghost use Rattle.std.specs.Option.{option_copied};
ghost use Rattle.std.specs.FinMap as map;

use std::alloc::{AllocError, Global};
use std::collections::VecDeque;
use std::marker::Model;
use vlsi_base::{FileBytes, FileName};

/// Files by name, in memory: a finite map from names to contents.
#[derive(Drop)]
pub struct FileMap {
    log: VecDeque<(FileName, FileBytes)>,
}

impl Model for FileMap {
    ghost use Rattle.vlsi_shelf.specs.Files.{Files, files_code};
    ghost use Rattle.std.specs.FinMap as map;

    ghost Value = { Files };

    ghost coded = { files_code };

    ghost view = { λ a. map.from_entries a.log.items };
}

impl FileMap {
    /// No files. It takes no memory yet.
    pub fn new(alloc: Global) -> Self
        ensures { result ≡ map.empty }
    {
        FileMap {
            log: VecDeque::new(alloc),
        }
    }

    /// The contents of a file. It takes no memory, and time as there were writes.
    pub fn get(&self, name: &FileName) -> Option<&FileBytes>
        ensures { option_copied result ≡ map.get self.now name.now }
    {
        for (known, bytes) in &self.log {
            if is_same(known.as_bytes(), name.as_bytes()) {
                return Some(bytes);
            }
        }
        None
    }

    /// Makes these the contents of the file, whether there was one or not. After running out of memory the map is as before.
    pub fn insert(&mut self, name: FileName, bytes: FileBytes) -> Result<(), AllocError>
        ensures ok { OnOk result (self.new ≡ map.insert self.old name bytes) }
        ensures err { OnErr result (self.new ≡ self.old) }
    {
        self.log.push_front((name, bytes))?;
        Ok(())
    }
}

/// A list of the numbers of calls, counted from 1.
#[derive(Drop)]
pub struct CallNumbers {
    numbers: Vec<u64>,
}

impl Model for CallNumbers {
    ghost use Rattle.std.specs.Prelude.{List, ℕ};

    ghost Value = { List ℕ };

    ghost view = { λ a. a.numbers.items };
}

impl CallNumbers {
    /// These numbers, in any order.
    pub fn new(numbers: Vec<u64>) -> Self
        ensures { result ≡ numbers.items }
    {
        CallNumbers { numbers }
    }

    /// Whether the number is in the list.
    pub fn contains(&self, number: u64) -> bool
        ensures { IsTrue result ↔ Contains self.now number }
    {
        self.numbers.contains(&number)
    }
}

// Whether two names are the same.
fn is_same(a: &[u8], b: &[u8]) -> bool
    ensures { IsTrue result ↔ (a.now ≡ b.now) }
{
    a == b
}
