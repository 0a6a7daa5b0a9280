// What can be wrong with an input file, where, and which limit it exceeds.
ghost use Rattle.std.specs.Prelude.{◌≡◌, codes};
ghost use Rattle.vlsi_base.specs.Fault.{fault_text, limit_text};
ghost use Rattle.vlsi_base.specs.declared.fault.ReadError.TheVariants.{Memory};

use crate::Names;
use std::alloc::{AllocError, AllocFailed};
use thiserror::Error;

/// What is wrong with an input file, in the words that are printed.
#[derive(Clone, Copy, Debug, PartialEq, Eq)]
pub enum FaultKind {
    /// A byte that begins no token.
    BadByte,
    /// A token that can't follow those before it.
    Syntax,
    /// A name that is declared twice.
    Twice,
    /// A form of the language that this program leaves out.
    Unsupported,
    /// A name that isn't declared, or a bit that a pattern file lists again.
    Unknown,
    /// A bit that two assignments drive.
    TwoDrivers,
    /// A bit that nothing drives.
    Undriven,
    /// Signals of which each reads the next, and the last the first.
    Cycle,
    /// Vectors of different widths, a condition of more than one bit, a range or an index that isn't in its vector, or a
    /// pattern's value that doesn't fit its column.
    Width,
    /// The clock or a `'stable` stands outside of guards, or a guard has no clock, or another than the first guard.
    ClockUse,
    /// An output that a state of a state machine doesn't assign.
    NotAssigned,
    /// A name that isn't a state's.
    BadState,
    /// A pragma of a state machine that is missing, or names no fitting signal.
    NoPragma,
    /// An instance of a cell that the library lacks.
    UnknownCell,
    /// Pins of an instance that aren't mapped once each.
    BadMap,
    /// A pin on no net.
    Unconnected,
    /// A net that nothing drives.
    NoDriver,
    /// A pattern whose time is before that of the pattern above it.
    TimeBack,
    /// A malformed line of an ap file.
    BadLine,
    /// An unknown layer.
    BadLayer,
    /// An unknown transform.
    BadTransform,
    /// An ap file without its last line.
    NoEnd,
    /// Text behind an ap file's last line.
    AfterEnd,
    /// An instance that isn't placed.
    NotPlaced,
}

impl FaultKind {
    /// The words that are printed for it. Takes no memory.
    pub fn as_str(self) -> &'static str
        ensures { result.now ≡ fault_text self }
    {
        match self {
            FaultKind::BadByte => "bad byte",
            FaultKind::Syntax => "syntax",
            FaultKind::Twice => "twice",
            FaultKind::Unsupported => "unsupported",
            FaultKind::Unknown => "unknown",
            FaultKind::TwoDrivers => "two drivers",
            FaultKind::Undriven => "undriven",
            FaultKind::Cycle => "cycle",
            FaultKind::Width => "width",
            FaultKind::ClockUse => "clock use",
            FaultKind::NotAssigned => "not assigned",
            FaultKind::BadState => "bad state",
            FaultKind::NoPragma => "no pragma",
            FaultKind::UnknownCell => "unknown cell",
            FaultKind::BadMap => "bad map",
            FaultKind::Unconnected => "unconnected",
            FaultKind::NoDriver => "no driver",
            FaultKind::TimeBack => "time back",
            FaultKind::BadLine => "bad line",
            FaultKind::BadLayer => "bad layer",
            FaultKind::BadTransform => "bad transform",
            FaultKind::NoEnd => "no end",
            FaultKind::AfterEnd => "after end",
            FaultKind::NotPlaced => "not placed",
        }
    }
}

/// A fault of an input file: its line, counted from 1, its kind, and the names at fault.
#[derive(Debug, Drop)]
pub struct InputFault {
    pub line: u32,
    pub kind: FaultKind,
    pub names: Names,
}

/// The quantities that are limited.
#[derive(Clone, Copy, Debug, PartialEq, Eq)]
pub enum LimitKind {
    /// Bytes of a file.
    File,
    /// Bytes of an identifier.
    Ident,
    /// Parentheses, ifs and cases that are open at once.
    Depth,
    /// Bits of all ports and signals of a source; of the ports and pins of a netlist; of the machine of a netlist.
    Bits,
    /// Operators of one expression, alternatives of one choice.
    Chain,
    /// A natural number in a source.
    Number,
    /// A coordinate or a width of an ap file, at scale 100.
    Coordinate,
    /// Port bits without vdd and vss.
    Ports,
    /// States of a state machine.
    States,
    /// The size of a machine; the shapes of a layout.
    Size,
    /// Cells of a library.
    Cells,
    /// Columns of a cell.
    Width,
    /// Input bits that the body of a state machine reads.
    Inputs,
}

impl LimitKind {
    /// The word that is printed for it. Takes no memory.
    pub fn as_str(self) -> &'static str
        ensures { result.now ≡ limit_text self }
    {
        match self {
            LimitKind::File => "file",
            LimitKind::Ident => "ident",
            LimitKind::Depth => "depth",
            LimitKind::Bits => "bits",
            LimitKind::Chain => "chain",
            LimitKind::Number => "number",
            LimitKind::Coordinate => "coordinate",
            LimitKind::Ports => "ports",
            LimitKind::States => "states",
            LimitKind::Size => "size",
            LimitKind::Cells => "cells",
            LimitKind::Width => "width",
            LimitKind::Inputs => "inputs",
        }
    }
}

/// A quantity that exceeds its limit, and what it reached.
#[derive(Clone, Copy, Debug, PartialEq, Eq)]
pub struct Limit {
    pub which: LimitKind,
    pub reached: u64,
}

/// Why a file isn't read.
#[derive(Debug, Drop, Error)]
pub enum ReadError {
    #[error("out of memory")]
    Memory,
    #[error("line {}: {}", .0.line, .0.kind.as_str())]
    Input(InputFault),
    #[error("limit: {} {}", .0.which.as_str(), .0.reached)]
    Limit(Limit),
}

impl From<AllocError> for ReadError {
    ghost from_gives = { λ _ e. e ≡ Memory };

    fn from(_: AllocError) -> Self {
        ReadError::Memory
    }
}

impl<T: Drop> From<AllocFailed<T>> for ReadError {
    ghost from_gives = { λ _ e. e ≡ Memory };

    fn from(_: AllocFailed<T>) -> Self {
        ReadError::Memory
    }
}
