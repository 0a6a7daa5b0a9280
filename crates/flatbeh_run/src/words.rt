// The words of `flatbeh`, and what they ask of it.
use std::alloc::Global;
use tool_words::{Entry, FromValues, LIBRARY, OUT, Values, WordsError, source, text};
use vlsi_base::FileName;

/// What `flatbeh` is asked to do: to make a data-flow text of a netlist of the library's cells.
#[derive(Drop)]
pub struct FlatbehCommand {
    /// The netlist's file, whose name ends in `.vst`.
    pub source: FileName,
    /// The folder of the library.
    pub library: FileName,
    /// The name of the text, without `.vbe`.
    pub out: FileName,
}

/// How `flatbeh` is called.
pub const FLATBEH_ENTRY: Entry = Entry {
    word: "flatbeh",
    endings: &[".vst"],
    settings: &[LIBRARY, OUT],
};

impl FromValues for FlatbehCommand {
    ghost use Rattle.flatbeh_run.specs.Words.{flatbeh_from};

    ghost asked = { flatbeh_from };

    fn from_values(alloc: Global, values: &Values) -> Result<Self, WordsError> {
        Ok(FlatbehCommand {
            source: source(alloc, values, FLATBEH_ENTRY.endings)?,
            library: text(alloc, values, LIBRARY)?,
            out: text(alloc, values, OUT)?,
        })
    }
}
