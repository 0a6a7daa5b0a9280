// The words of `boom`, and what they ask of it.
use std::alloc::Global;
use tool_words::{Entry, FromValues, NODES, OUT, Values, WordsError, number, source, text};
use vlsi_base::FileName;

/// What `boom` is asked to do: to make the source smaller.
#[derive(Drop)]
pub struct BoomCommand {
    /// The source's file, whose name ends in `.vbe`.
    pub source: FileName,
    /// The name of the smaller source, without `.vbe`.
    pub out: FileName,
    /// The most nodes that a diagram may have.
    pub nodes: u32,
}

/// How `boom` is called.
pub const BOOM_ENTRY: Entry = Entry {
    word: "boom",
    endings: &[".vbe"],
    settings: &[OUT, NODES],
};

impl FromValues for BoomCommand {
    ghost use Rattle.boom_run.specs.Words.{boom_from};

    ghost asked = { boom_from };

    fn from_values(alloc: Global, values: &Values) -> Result<Self, WordsError> {
        Ok(BoomCommand {
            source: source(alloc, values, BOOM_ENTRY.endings)?,
            out: text(alloc, values, OUT)?,
            nodes: number(values, NODES)?,
        })
    }
}
