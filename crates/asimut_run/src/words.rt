// The words of `asimut`, and what they ask of it.
use std::alloc::Global;
use tool_words::{
    Entry, Form, FromValues, Setting, Values, WordsError, given, has_ending, source, text,
};
use vlsi_base::FileName;

/// What `asimut` is asked to do: to run patterns on the source.
#[derive(Drop)]
pub struct AsimutCommand {
    /// The source's file, whose name ends in `.vbe`.
    pub source: FileName,
    /// The file of patterns, whose name ends in `.pat`.
    pub patterns: FileName,
}

/// What `asimut` is asked to do: to run patterns on the netlist of the library's cells.
#[derive(Drop)]
pub struct AsimutNetlistCommand {
    /// The netlist's file, whose name ends in `.vst`.
    pub source: FileName,
    /// The file of patterns, whose name ends in `.pat`.
    pub patterns: FileName,
    /// The folder of the library.
    pub library: FileName,
}

/// What `asimut` is asked to do: to run patterns on a source, or on a netlist.
#[derive(Drop)]
pub enum AsimutTask {
    Source(AsimutCommand),
    Netlist(AsimutNetlistCommand),
}

const PATTERNS: Setting = Setting {
    name: "patterns",
    letter: Some(b'p'),
    value: "PATTERNS",
    required: true,
    form: Form::Ending(".pat"),
};

// The library, which stands only beside a netlist.
const NETLIST_LIBRARY: Setting = Setting {
    name: "library",
    letter: Some(b'l'),
    value: "DIR",
    required: false,
    form: Form::Text,
};

/// How `asimut` is called.
pub const ASIMUT_ENTRY: Entry = Entry {
    word: "asimut",
    endings: &[".vbe", ".vst"],
    settings: &[PATTERNS, NETLIST_LIBRARY],
};

impl FromValues for AsimutTask {
    ghost use Rattle.asimut_run.specs.Words.{asimut_from};

    ghost asked = { asimut_from };

    fn from_values(alloc: Global, values: &Values) -> Result<Self, WordsError> {
        let source = source(alloc, values, ASIMUT_ENTRY.endings)?;
        let patterns = text(alloc, values, PATTERNS)?;
        let is_netlist = has_ending(source.as_bytes(), ".vst");
        match (is_netlist, given(values, NETLIST_LIBRARY.name)) {
            (false, None) => Ok(AsimutTask::Source(AsimutCommand { source, patterns })),
            (true, Some(library)) => Ok(AsimutTask::Netlist(AsimutNetlistCommand {
                source,
                patterns,
                library: FileName::from_bytes(alloc, library.as_bytes())?,
            })),
            _ => Err(WordsError::Usage),
        }
    }
}
