// What is read of a file or a folder, as a line.
use crate::escape::push_shown;
use crate::joined::read_joined;
use ap_io::{Figure, read_ap, write_ap};
use cell_lib::{LibError, check_library, load_library};
use std::alloc::{AllocError, Global};
use vlsi_base::{FileName, Limit, MOST_NETLIST_BYTES, ReadError, Text, push_u64};
use vlsi_shelf::{Shelf, ShelfError};

/// What the names are.
#[derive(Clone, Copy, PartialEq, Eq)]
pub enum Kind {
    /// Ap files: what is read, and its text.
    Ap,
    /// Ap files: how many lines are read.
    Figure,
    /// Ap files: how many shapes they draw, and into how many groups these are joined.
    Joints,
    /// Libraries.
    Library,
    /// Libraries for layouts by private tracks.
    Tracks,
}

impl Kind {
    /// The kind of this word.
    pub fn of(word: &str) -> Option<Kind> {
        match word {
            "ap" => Some(Kind::Ap),
            "figure" => Some(Kind::Figure),
            "joints" => Some(Kind::Joints),
            "library" => Some(Kind::Library),
            "tracks" => Some(Kind::Tracks),
            _ => None,
        }
    }
}

// limit KIND REACHED
fn push_limit(alloc: Global, line: &mut Text, limit: &Limit) -> Result<(), AllocError> {
    line.append(b"limit ")?;
    line.append(limit.which.as_str().as_bytes())?;
    line.append(b" ")?;
    push_u64(alloc, line, limit.reached)
}

// A word, and the name of a file behind it.
fn push_file(line: &mut Text, word: &[u8], name: &FileName) -> Result<(), AllocError> {
    line.append(word)?;
    line.append(name.as_bytes())
}

// LINE FAULT, or the limit
fn push_refusal(alloc: Global, line: &mut Text, error: &ReadError) -> Result<(), AllocError> {
    match error {
        ReadError::Memory => line.append(b"memory"),
        ReadError::Limit(limit) => push_limit(alloc, line, limit),
        ReadError::Input(fault) => {
            push_u64(alloc, line, u64::from(fault.line))?;
            line.append(b" ")?;
            line.append(fault.kind.as_str().as_bytes())
        }
    }
}

// ok NAME ITEMS
fn push_figure(alloc: Global, line: &mut Text, figure: &Figure) -> Result<(), AllocError> {
    line.append(b"ok ")?;
    match &figure.name {
        None => line.append(b"*")?,
        Some(name) => line.append(name.to_text(alloc)?.as_bytes())?,
    }
    line.append(b" ")?;
    push_u64(alloc, line, figure.items.as_slice().len() as u64)
}

// The text of a figure behind its name.
fn push_text(alloc: Global, line: &mut Text, figure: &Figure) -> Result<(), AllocError> {
    line.append(b" ")?;
    let text = write_ap(alloc, figure)?;
    push_shown(line, text.as_bytes())
}

// What is read of an ap file, with its text where that is wanted.
fn push_read(
    alloc: Global,
    line: &mut Text,
    bytes: &[u8],
    with_text: bool,
) -> Result<(), AllocError> {
    let figure = match read_ap(alloc, bytes) {
        Ok(figure) => figure,
        Err(error) => return push_refusal(alloc, line, &error),
    };
    push_figure(alloc, line, &figure)?;
    if with_text {
        push_text(alloc, line, &figure)?;
    }
    Ok(())
}

fn push_ap<S: Shelf>(
    alloc: Global,
    line: &mut Text,
    name: &FileName,
    kind: Kind,
    shelf: &mut S,
) -> Result<(), AllocError> {
    match shelf.read(alloc, name, MOST_NETLIST_BYTES as u64) {
        Ok(bytes) if kind == Kind::Joints => push_joined(alloc, line, bytes.as_bytes()),
        Ok(bytes) => push_read(alloc, line, bytes.as_bytes(), kind == Kind::Ap),
        Err(ShelfError::Memory) => Err(AllocError),
        Err(ShelfError::Missing) => push_file(line, b"missing ", name),
        Err(ShelfError::Failed) => push_file(line, b"read fault ", name),
    }
}

// ok SHAPES GROUPS
fn push_joined(alloc: Global, line: &mut Text, bytes: &[u8]) -> Result<(), AllocError> {
    let joined = match read_joined(alloc, bytes) {
        Ok(Some(joined)) => joined,
        Ok(None) => return line.append(b"too many shapes"),
        Err(error) => return push_refusal(alloc, line, &error),
    };
    line.append(b"ok ")?;
    push_u64(alloc, line, joined.shapes)?;
    line.append(b" ")?;
    push_u64(alloc, line, joined.groups)
}

// Why a library is refused.
fn push_error(alloc: Global, line: &mut Text, error: &LibError) -> Result<(), AllocError> {
    match error {
        LibError::Memory => line.append(b"memory"),
        LibError::Missing(name) => push_file(line, b"missing ", name),
        LibError::ReadFault(name) => push_file(line, b"read fault ", name),
        LibError::Limit(limit) => push_limit(alloc, line, limit),
        LibError::BadCatal(number) => {
            line.append(b"catal ")?;
            push_u64(alloc, line, u64::from(*number))
        }
        LibError::BadCell { cell, cause } => {
            line.append(cell.as_bytes())?;
            line.append(b" ")?;
            push_u64(alloc, line, u64::from(*cause))
        }
    }
}

fn push_library<S: Shelf>(
    alloc: Global,
    line: &mut Text,
    folder: &FileName,
    tracks: bool,
    shelf: &mut S,
) -> Result<(), AllocError> {
    let files = match load_library(alloc, shelf, folder) {
        Ok(files) => files,
        Err(error) => return push_error(alloc, line, &error),
    };
    match check_library(alloc, &files, tracks) {
        Ok(_) => line.append(b"ok"),
        Err(error) => push_error(alloc, line, &error),
    }
}

/// The line of a file or a folder. Takes memory for what is read.
pub fn line<S: Shelf>(
    alloc: Global,
    kind: Kind,
    name: &FileName,
    shelf: &mut S,
) -> Result<Text, AllocError> {
    let mut line = Text::new(Vec::new(alloc));
    match kind {
        Kind::Ap | Kind::Figure | Kind::Joints => push_ap(alloc, &mut line, name, kind, shelf)?,
        Kind::Library => push_library(alloc, &mut line, name, false, shelf)?,
        Kind::Tracks => push_library(alloc, &mut line, name, true, shelf)?,
    }
    line.append(b"\n")?;
    Ok(line)
}
