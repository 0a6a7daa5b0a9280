// The words of `s2r`, and what they ask of it.
use std::alloc::Global;
use tool_words::{
    Entry, Form, FromValues, LIBRARY, OUT, Setting, Values, WordsError, source, text,
};
use vlsi_base::FileName;

/// What `s2r` is asked to do: to write a layout of the library's cells in real units.
#[derive(Drop)]
pub struct S2rCommand {
    /// The layout's file, whose name ends in `.ap`.
    pub source: FileName,
    /// The file of the table, whose name ends in `.real`.
    pub table: FileName,
    /// The folder of the library.
    pub library: FileName,
    /// The name of the file that is written, without its ending.
    pub out: FileName,
}

// The table that leads to real units.
const TABLE: Setting = Setting {
    name: "table",
    letter: Some(b'p'),
    value: "TABLE",
    required: true,
    form: Form::Ending(".real"),
};

/// How `s2r` is called.
pub const S2R_ENTRY: Entry = Entry {
    word: "s2r",
    endings: &[".ap"],
    settings: &[TABLE, LIBRARY, OUT],
};

impl FromValues for S2rCommand {
    ghost use Rattle.s2r_run.specs.Words.{s2r_from};

    ghost asked = { s2r_from };

    fn from_values(alloc: Global, values: &Values) -> Result<Self, WordsError> {
        Ok(S2rCommand {
            source: source(alloc, values, S2R_ENTRY.endings)?,
            table: text(alloc, values, TABLE)?,
            library: text(alloc, values, LIBRARY)?,
            out: text(alloc, values, OUT)?,
        })
    }
}
