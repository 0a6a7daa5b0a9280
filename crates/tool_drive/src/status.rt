// How a call ends.
ghost use Rattle.std.specs.Prelude.{◌≡◌};
ghost use Rattle.tool_drive.specs.Status.{code_of, has_line as line_wanted};
ghost use Rattle.tool_drive.specs.Lines.{says_all};

use vlsi_base::{FileBytes, FileName, InputFault, Kind, Limit, Name, Terminal, Text};

/// Why a file stopped the run.
#[derive(Clone, Copy, Debug, PartialEq, Eq)]
pub enum FileCause {
    /// A file that is read isn't there.
    Missing,
    /// A file that is read can't be.
    ReadFault,
    /// A file that is written can't be.
    WriteFault,
    /// What is answered can't be printed; a file that was written stands.
    OutFault,
}

/// What is wrong with a library.
#[derive(Drop)]
pub enum LibraryFault {
    /// A line of CATAL, counted from 1.
    BadCatal(u32),
    /// A cell, and the number of the check that it fails, counted from 1.
    BadCell { cell: Text, cause: u8 },
}

/// What a tool that compares, or that needs each cell's behaviour, found.
#[derive(Drop)]
pub enum Verdict {
    /// A bit that isn't what the pattern expects, and the pattern's label, or its number from 0.
    Differs { label: Text, name: Name },
    /// The name of an instance's cell, where nothing is known of the cell.
    NoBehaviour(Text),
    /// Two ports of a layout that are joined.
    Shorted { a: Name, b: Name },
    /// A port or an instance that isn't the same in two netlists.
    Different(Name),
    /// A name that one of two machines has in a role in which the other lacks it.
    Names(Name),
    /// An output or a register of two machines that isn't one function in both.
    Unequal(Name),
    /// The lines of a layout's breaches, without the end of the last.
    Broken(FileBytes),
    /// The metal and the two rectangles of shapes that grow too near each other, as they are printed.
    Near(FileBytes),
}

/// How a call ends. Every tool may answer `Accepted`, `Usage`, `File`, `Memory` and `Limit`, and `Source` where it is given one. Those
/// that read a library answer `Library` too, those that map to its cells `NoCover`, those that build diagrams `Budget`, those that route
/// over rows `NoPath`, and those that compare, that need each cell's behaviour, or that make shapes real, `No`. The driver itself answers
/// `File`, `Memory` and the limit file; the other refusals are the tools'.
#[derive(Drop)]
pub enum Status {
    /// What was asked is done, and printed.
    Accepted,
    /// The words spell no command.
    Usage,
    /// A source file, or the file that stands beside it, has a fault.
    Source { file: FileName, fault: InputFault },
    /// The library has a fault.
    Library(LibraryFault),
    /// No cell of the library is of a kind that is needed.
    NoCover(Kind),
    /// The diagram of an equation is too large; how many nodes it reached.
    Budget { equation: Name, reached: u64 },
    /// A net, by its number, has no way to a terminal.
    NoPath { net: u32, terminal: Terminal },
    /// A file stopped the run.
    File { cause: FileCause, name: FileName },
    /// Memory ran out.
    Memory,
    /// A quantity of the input is over its number.
    Limit(Limit),
    /// A tool that compares found a difference, or a cell without behaviour.
    No(Verdict),
}

impl Status {
    /// The number with which the program ends. Takes no memory.
    pub fn code(&self) -> u8
        ensures { result ≡ code_of self.now }
    {
        match self {
            Status::Accepted => 0,
            Status::Usage => 1,
            Status::Source { .. } => 2,
            Status::Library(_) => 3,
            Status::NoCover(_) => 4,
            Status::Budget { .. } => 5,
            Status::NoPath { .. } => 6,
            Status::File { .. } => 7,
            Status::Memory => 8,
            Status::Limit(_) => 9,
            Status::No(_) => 11,
        }
    }

    /// Whether the line of a refusal says all by itself, without the tool's word in front. Takes no memory.
    pub fn says_all(&self) -> bool
        ensures { result ≡ says_all self.now }
    {
        match self {
            Status::No(Verdict::Unequal(_) | Verdict::Broken(_)) => true,
            _ => false,
        }
    }

    /// Whether a refusal with this status prints a line. Takes no memory.
    pub fn has_line(&self) -> bool
        ensures { result ≡ line_wanted self.now }
    {
        match self {
            Status::Accepted => false,
            Status::File { cause, .. } => *cause != FileCause::OutFault,
            _ => true,
        }
    }
}
