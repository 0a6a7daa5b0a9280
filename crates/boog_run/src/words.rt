// The words of `boog`, and what they ask of it.
use std::alloc::Global;
use tool_words::{Entry, FromValues, LIBRARY, OUT, Values, WordsError, source, text};
use vlsi_base::FileName;

/// What `boog` is asked to do: to make a netlist of the library's cells of the source.
#[derive(Drop)]
pub struct BoogCommand {
    /// The source's file, whose name ends in `.vbe`.
    pub source: FileName,
    /// The folder of the library.
    pub library: FileName,
    /// The name of the netlist, without `.vst`.
    pub out: FileName,
}

/// How `boog` is called.
pub const BOOG_ENTRY: Entry = Entry {
    word: "boog",
    endings: &[".vbe"],
    settings: &[LIBRARY, OUT],
};

impl FromValues for BoogCommand {
    ghost use Rattle.boog_run.specs.Words.{boog_from};

    ghost asked = { boog_from };

    fn from_values(alloc: Global, values: &Values) -> Result<Self, WordsError> {
        Ok(BoogCommand {
            source: source(alloc, values, BOOG_ENTRY.endings)?,
            library: text(alloc, values, LIBRARY)?,
            out: text(alloc, values, OUT)?,
        })
    }
}
