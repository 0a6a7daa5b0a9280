// The words of `lvx`, and what they ask of it.
use std::alloc::Global;
use tool_words::{Entry, Form, FromValues, LIBRARY, Setting, Values, WordsError, source, text};
use vlsi_base::FileName;

/// What `lvx` is asked to do: to compare two netlists by name.
#[derive(Drop)]
pub struct LvxCommand {
    /// The netlist's file, whose name ends in `.vst`.
    pub source: FileName,
    /// The file of the netlist that it is compared with, whose name ends in `.vst`.
    pub other: FileName,
    /// The folder of the library.
    pub library: FileName,
}

// What it is compared with.
const OTHER: Setting = Setting {
    name: "other",
    letter: Some(b'b'),
    value: "OTHER",
    required: true,
    form: Form::Ending(".vst"),
};

/// How `lvx` is called.
pub const LVX_ENTRY: Entry = Entry {
    word: "lvx",
    endings: &[".vst"],
    settings: &[OTHER, LIBRARY],
};

impl FromValues for LvxCommand {
    ghost use Rattle.lvx_run.specs.Words.{lvx_from};

    ghost asked = { lvx_from };

    fn from_values(alloc: Global, values: &Values) -> Result<Self, WordsError> {
        Ok(LvxCommand {
            source: source(alloc, values, LVX_ENTRY.endings)?,
            other: text(alloc, values, OTHER)?,
            library: text(alloc, values, LIBRARY)?,
        })
    }
}
