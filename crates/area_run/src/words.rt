// The words of `area`, and what they ask of it.
use std::alloc::Global;
use tool_words::{Entry, FromValues, LIBRARY, Values, WordsError, source, text};
use vlsi_base::FileName;

/// What `area` is asked to do: to find the least area of the trees of a source's graph.
#[derive(Drop)]
pub struct AreaCommand {
    /// The source's file, whose name ends in `.vbe`.
    pub source: FileName,
    /// The folder of the library.
    pub library: FileName,
}

/// How `area` is called.
pub const AREA_ENTRY: Entry = Entry {
    word: "area",
    endings: &[".vbe"],
    settings: &[LIBRARY],
};

impl FromValues for AreaCommand {
    ghost use Rattle.area_run.specs.Words.{area_from};

    ghost asked = { area_from };

    fn from_values(alloc: Global, values: &Values) -> Result<Self, WordsError> {
        Ok(AreaCommand {
            source: source(alloc, values, AREA_ENTRY.endings)?,
            library: text(alloc, values, LIBRARY)?,
        })
    }
}
