// The reader.
ghost use Rattle.std.specs.Prelude.{◌≡◌, ◌≤◌, [], List, ℕ, length, IfOk, IfErr, OnOk};
ghost use Rattle.vlsi_base.specs.Lines.{lines_of};
ghost use Rattle.catal.specs.Used.{Holds};
ghost use Rattle.catal.specs.Catal.{limit_error, AreUsed, IsCatal, IsCatalRefusal};
ghost use Rattle.catal.specs.Lines.{AddsCell, Takes, IsRefusedAt, IsLinesRefusal};

use crate::CatalError;
use crate::entry::{Entry, read_line};
use crate::used::{Used, add, none};
use lexer_base::MOST_IDENTIFIER_BYTES;
use std::alloc::{AllocError, Global};
use vlsi_base::{Limit, LimitKind, Lines, MOST_SOURCE_BYTES, Text, Texts};

/// The most cells that a library uses.
pub const MOST_CELLS: usize = 1024;

fn limit(which: LimitKind, reached: u64) -> CatalError
    ensures { result ≡ limit_error which reached }
{
    CatalError::Limit(Limit { which, reached })
}

/// The cells that are used so far.
#[derive(Drop)]
struct Cells {
    /// In the order of the file.
    names: Texts,
    /// The same, found by name.
    used: Used,
}

impl Cells {
    fn new(alloc: Global) -> Cells
        ensures names { result.names ≡ [] }
        ensures holds { Holds result.used [] }
    {
        Cells {
            names: Texts::new(Vec::new(alloc)),
            used: none(alloc),
        }
    }

    // Uses a cell that isn't used yet; where it is, the answer is false.
    fn add(&mut self, alloc: Global, name: Text) -> Result<bool, AllocError>
        requires { Holds self.old.used self.old.names }
        ensures { IfOk result (λ added. AddsCell added self.old.names name self.new) }
    {
        let added = add(alloc, &mut self.used, name.as_bytes())?;
        if added {
            self.names.push(name)?;
        }
        Ok(added)
    }

    // Takes the line of this number.
    fn take(&mut self, alloc: Global, line: &[u8], number: u32) -> Result<(), CatalError>
        requires { Holds self.old.used self.old.names }
        ensures taken { OnOk result (Takes line.now self.old.names self.new.names) }
        ensures holds { OnOk result (Holds self.new.used self.new.names) }
        ensures refused { IfErr result (λ e. IsRefusedAt self.old.names number line.now e) }
    {
        if line.is_empty() {
            return Ok(());
        }
        let Some(Entry { name, used }) = read_line(alloc, line)? else {
            return Err(CatalError::BadLine(number));
        };
        let length = name.as_bytes().len();
        if length > MOST_IDENTIFIER_BYTES {
            return Err(limit(LimitKind::Ident, length as u64));
        }
        if used && !self.add(alloc, name)? {
            return Err(CatalError::BadLine(number));
        }
        Ok(())
    }
}

// The cells that the lines of a text use.
fn used_cells(alloc: Global, bytes: &[u8]) -> Result<Texts, CatalError>
    requires { length bytes.now ≤ MOST_SOURCE_BYTES }
    ensures read { IfOk result (λ names. AreUsed (lines_of bytes.now) names) }
    ensures refused { IfErr result (λ e. IsLinesRefusal (lines_of bytes.now) e) }
{
    let mut cells = Cells::new(alloc);
    let mut lines = Lines::new(bytes);
    let mut number = 0;
    while let Some(line) = lines.next_line() {
        number += 1;
        cells.take(alloc, line, number)?;
    }
    Ok(cells.names)
}

/// Reads a CATAL: the names of the cells with the word `C`, in the order of the file and in lower case.
///
/// A line is empty, or a cell's name, spaces or tabs, and a word of capital letters. A name is a letter, then letters, digits
/// and underscores, and no reserved word of VHDL.
///
/// It is refused, in this order: `Limit` of `File` with 1,048,577 reached, where it has more than 1,048,576 bytes; at its first
/// line at fault, by `BadLine` where that is no such line, or gives the word `C` to a cell that has it, and by `Limit` of
/// `Ident` where its name has more than 64 bytes; `Limit` of `Cells` where there are more than 1,024. Memory goes by the names,
/// and time by the bytes and the names in order.
pub fn read_catal(alloc: Global, bytes: &[u8]) -> Result<Texts, CatalError>
    ensures accepted { IfOk result (λ names. IsCatal bytes.now names) }
    ensures refused { IfErr result (λ e. IsCatalRefusal bytes.now e) }
{
    if bytes.len() > MOST_SOURCE_BYTES {
        return Err(limit(LimitKind::File, MOST_SOURCE_BYTES as u64 + 1));
    }
    let names = used_cells(alloc, bytes)?;
    let count = names.as_slice().len();
    if count > MOST_CELLS {
        return Err(limit(LimitKind::Cells, count as u64));
    }
    Ok(names)
}
