// The words of `proof`, and what they ask of it.
use std::alloc::Global;
use tool_words::{
    Entry, Form, FromValues, NODES, Setting, Values, WordsError, number, source, text,
};
use vlsi_base::FileName;

/// What `proof` is asked to do: to compare two sources as functions.
#[derive(Drop)]
pub struct ProofCommand {
    /// The source's file, whose name ends in `.vbe`.
    pub source: FileName,
    /// The file of the source that it is compared with, whose name ends in `.vbe`.
    pub other: FileName,
    /// The most nodes that a diagram may have.
    pub nodes: u32,
}

// What it is compared with.
const OTHER: Setting = Setting {
    name: "other",
    letter: Some(b'b'),
    value: "OTHER",
    required: true,
    form: Form::Ending(".vbe"),
};

/// How `proof` is called.
pub const PROOF_ENTRY: Entry = Entry {
    word: "proof",
    endings: &[".vbe"],
    settings: &[OTHER, NODES],
};

impl FromValues for ProofCommand {
    ghost use Rattle.proof_run.specs.Words.{proof_from};

    ghost asked = { proof_from };

    fn from_values(alloc: Global, values: &Values) -> Result<Self, WordsError> {
        Ok(ProofCommand {
            source: source(alloc, values, PROOF_ENTRY.endings)?,
            other: text(alloc, values, OTHER)?,
            nodes: number(values, NODES)?,
        })
    }
}
