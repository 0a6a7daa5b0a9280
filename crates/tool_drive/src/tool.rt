// What a tool says of itself: what it reads, and what it answers to what was read.
ghost use Rattle.std.specs.Prelude.{◌≡◌, None, IfOk, [], get_or, length};
ghost use Rattle.tool_drive.specs.Plan.{limited, large};

use crate::Status;
use std::alloc::{AllocError, Global};
use vlsi_base::{FileBytes, FileName, MOST_NETLIST_BYTES, MOST_SOURCE_BYTES};

/// A file that is read, and the most bytes that it may have. A longer one is refused by the limit file, before the next file is read.
#[derive(Drop)]
pub struct Wanted {
    pub name: FileName,
    pub most: u64,
}

impl Wanted {
    /// A file of at most `MOST_SOURCE_BYTES` bytes; a longer one is refused.
    pub fn limited(name: FileName) -> Self
        ensures { result ≡ limited name }
    {
        Wanted {
            name,
            most: MOST_SOURCE_BYTES as u64,
        }
    }

    /// A netlist's or a layout's file, of at most `MOST_NETLIST_BYTES` bytes; a longer one is refused.
    pub fn large(name: FileName) -> Self
        ensures { result ≡ large name }
    {
        Wanted {
            name,
            most: MOST_NETLIST_BYTES as u64,
        }
    }
}

/// The bytes of a file that was read, by its number from 0; none where there are fewer files.
pub fn bytes_at(read: &[FileBytes], number: usize) -> &[u8]
    ensures { result.now ≡ get_or read.now number [] }
{
    match read.get(number) {
        Some(bytes) => bytes.as_bytes(),
        None => &[],
    }
}

/// A file that is written.
#[derive(Drop)]
pub struct Written {
    pub name: FileName,
    pub bytes: FileBytes,
}

/// What a tool answers: the text that it prints, and the contents of the file that it writes, if it writes one. `name` is this
/// file's, or where there is none that of the file which is named where the text can't be printed.
#[derive(Drop)]
pub struct Product {
    pub name: FileName,
    pub file: Option<FileBytes>,
    pub text: FileBytes,
}

/// Why a tool answers nothing, and the file that it leaves all the same, if it leaves one.
#[derive(Drop)]
pub struct Refusal {
    pub status: Status,
    pub part: Option<Written>,
}

impl Refusal {
    /// A refusal that leaves no file.
    pub fn plain(status: Status) -> Self
        ensures { result ≡ record { status = status; part = None } }
    {
        Refusal { status, part: None }
    }
}

impl From<AllocError> for Refusal {
    ghost use Rattle.std.specs.Prelude.{◌≡◌, None};
    ghost use Rattle.tool_drive.specs.declared.status.Status.TheVariants as status;

    ghost from_gives = { λ _ r. r ≡ record { status = status.Memory; part = None } };

    fn from(_: AllocError) -> Self {
        Refusal {
            status: Status::Memory,
            part: None,
        }
    }
}

/// What a tool answers: a product, or why there is none.
pub type Answer = Result<Product, Refusal>;

/// One tool, with what the words ask of it.
pub trait Tool {
    ghost use Rattle.std.specs.Prelude.{Result};
    ghost use Rattle.tool_drive.specs.declared.tool.Product.{Product};
    ghost use Rattle.tool_drive.specs.declared.tool.Refusal.{Refusal};
    ghost use Rattle.tool_drive.specs.Plan.{Plan, Inputs, inputs};
    ghost use Rattle.tool_drive.specs.Table.{IsJudged};

    /// The files that it reads, in their order.
    ghost plan: { Self → Plan };

    /// What it answers to what stands in them.
    ghost answers: { Self → Inputs → Result Product Refusal → Type 0 };

    /// The files that the words name. It takes memory for their names.
    fn first(&self, alloc: Global) -> Result<Vec<Wanted>, AllocError>
        ensures { IfOk result (λ wanted. wanted.items ≡ (plan self.now).first) };

    /// The files that the contents of these name: those of a library's cells, by its CATAL. A bad CATAL names none, and `judge`
    /// refuses it.
    fn more(&self, alloc: Global, first: &[FileBytes]) -> Result<Vec<Wanted>, AllocError>
        requires { length first.now ≡ length (plan self.now).first }
        ensures { IfOk result (λ wanted. wanted.items ≡ (plan self.now).more first.now) };

    /// What stands in them comes to this. No file is read or written.
    fn judge(&self, alloc: Global, first: &[FileBytes], more: &[FileBytes]) -> Answer
        requires first { length first.now ≡ length (plan self.now).first }
        requires more { length more.now ≡ length ((plan self.now).more first.now) }
        ensures { IsJudged (answers self.now (inputs first.now more.now)) result };
}
