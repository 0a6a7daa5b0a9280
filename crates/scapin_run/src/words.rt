// The words of `scapin`, and what they ask of it.
use std::alloc::Global;
use tool_words::{
    Entry, Form, FromValues, LIBRARY, OUT, Setting, Values, WordsError, source, text,
};
use vlsi_base::FileName;

/// What `scapin` is asked to do: to put a scan path through the registers of a netlist.
#[derive(Drop)]
pub struct ScapinCommand {
    /// The netlist's file, whose name ends in `.vst`.
    pub source: FileName,
    /// The file of the path, whose name ends in `.path`.
    pub path: FileName,
    /// The folder of the library.
    pub library: FileName,
    /// The name of the new netlist, without `.vst`.
    pub out: FileName,
}

// The registers in their order.
const PATH: Setting = Setting {
    name: "path",
    letter: Some(b'p'),
    value: "PATH",
    required: true,
    form: Form::Ending(".path"),
};

/// How `scapin` is called.
pub const SCAPIN_ENTRY: Entry = Entry {
    word: "scapin",
    endings: &[".vst"],
    settings: &[PATH, LIBRARY, OUT],
};

impl FromValues for ScapinCommand {
    ghost use Rattle.scapin_run.specs.Words.{scapin_from};

    ghost asked = { scapin_from };

    fn from_values(alloc: Global, values: &Values) -> Result<Self, WordsError> {
        Ok(ScapinCommand {
            source: source(alloc, values, SCAPIN_ENTRY.endings)?,
            path: text(alloc, values, PATH)?,
            library: text(alloc, values, LIBRARY)?,
            out: text(alloc, values, OUT)?,
        })
    }
}
