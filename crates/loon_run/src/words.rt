// The words of `loon`, and what they ask of it.
use std::alloc::Global;
use tool_words::{
    Entry, FANOUT, FromValues, LIBRARY, OUT, Values, WordsError, number, source, text,
};
use vlsi_base::FileName;

/// What `loon` is asked to do: to put buffers into a netlist of the library's cells, and to choose the cells that make it fast.
#[derive(Drop)]
pub struct LoonCommand {
    /// The netlist's file, whose name ends in `.vst`.
    pub source: FileName,
    /// The folder of the library.
    pub library: FileName,
    /// The name of the new netlist, without `.vst`.
    pub out: FileName,
    /// The most sinks of a net, 4 to 1,000,000: pins of cells that read it, but for clock pins.
    pub fanout: u32,
}

/// How `loon` is called.
pub const LOON_ENTRY: Entry = Entry {
    word: "loon",
    endings: &[".vst"],
    settings: &[LIBRARY, OUT, FANOUT],
};

impl FromValues for LoonCommand {
    ghost use Rattle.loon_run.specs.Words.{loon_from};

    ghost asked = { loon_from };

    fn from_values(alloc: Global, values: &Values) -> Result<Self, WordsError> {
        Ok(LoonCommand {
            source: source(alloc, values, LOON_ENTRY.endings)?,
            library: text(alloc, values, LIBRARY)?,
            out: text(alloc, values, OUT)?,
            fanout: number(values, FANOUT)?,
        })
    }
}
