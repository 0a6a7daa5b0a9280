// The words of `cougar`, and what they ask of it.
use std::alloc::Global;
use tool_words::{Entry, FromValues, LIBRARY, OUT, Values, WordsError, source, text};
use vlsi_base::FileName;

/// What `cougar` is asked to do: to take the netlist out of a layout of the library's cells.
#[derive(Drop)]
pub struct CougarCommand {
    /// The layout's file, whose name ends in `.ap`.
    pub source: FileName,
    /// The folder of the library.
    pub library: FileName,
    /// The name of the netlist, without `.vst`.
    pub out: FileName,
}

/// How `cougar` is called.
pub const COUGAR_ENTRY: Entry = Entry {
    word: "cougar",
    endings: &[".ap"],
    settings: &[LIBRARY, OUT],
};

impl FromValues for CougarCommand {
    ghost use Rattle.cougar_run.specs.Words.{cougar_from};

    ghost asked = { cougar_from };

    fn from_values(alloc: Global, values: &Values) -> Result<Self, WordsError> {
        Ok(CougarCommand {
            source: source(alloc, values, COUGAR_ENTRY.endings)?,
            library: text(alloc, values, LIBRARY)?,
            out: text(alloc, values, OUT)?,
        })
    }
}
