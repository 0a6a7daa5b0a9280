// The words of `fmi`, and what they ask of it.
use std::alloc::Global;
use tool_words::{Entry, FromValues, OUT, Values, WordsError, source, text};
use vlsi_base::FileName;

/// What `fmi` is asked to do: to make the state machine with the fewest states that does what a source does.
#[derive(Drop)]
pub struct FmiCommand {
    /// The source's file, whose name ends in `.fsm`.
    pub source: FileName,
    /// The name of the text, without `.fsm`.
    pub out: FileName,
}

/// How `fmi` is called.
pub const FMI_ENTRY: Entry = Entry {
    word: "fmi",
    endings: &[".fsm"],
    settings: &[OUT],
};

impl FromValues for FmiCommand {
    ghost use Rattle.fmi_run.specs.Words.{fmi_from};

    ghost asked = { fmi_from };

    fn from_values(alloc: Global, values: &Values) -> Result<Self, WordsError> {
        Ok(FmiCommand {
            source: source(alloc, values, FMI_ENTRY.endings)?,
            out: text(alloc, values, OUT)?,
        })
    }
}
