// The words of `druc`, and what they ask of it.
use std::alloc::Global;
use tool_words::{Entry, FromValues, LIBRARY, Values, WordsError, source, text};
use vlsi_base::FileName;

/// What `druc` is asked to do: to list where a layout of the library's cells breaks the rules.
#[derive(Drop)]
pub struct DrucCommand {
    /// The layout's file, whose name ends in `.ap`.
    pub source: FileName,
    /// The folder of the library.
    pub library: FileName,
}

/// How `druc` is called.
pub const DRUC_ENTRY: Entry = Entry {
    word: "druc",
    endings: &[".ap"],
    settings: &[LIBRARY],
};

impl FromValues for DrucCommand {
    ghost use Rattle.druc_run.specs.Words.{druc_from};

    ghost asked = { druc_from };

    fn from_values(alloc: Global, values: &Values) -> Result<Self, WordsError> {
        Ok(DrucCommand {
            source: source(alloc, values, DRUC_ENTRY.endings)?,
            library: text(alloc, values, LIBRARY)?,
        })
    }
}
