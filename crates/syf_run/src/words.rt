// The words of `syf`, and what they ask of it.
use std::alloc::Global;
use tool_words::{
    ENCODING, Encoding, Entry, FromValues, OUT, SEED, Values, WordsError, encoding_given, number,
    source, text,
};
use vlsi_base::FileName;

/// What `syf` is asked to do: to make a data-flow text of a state machine.
#[derive(Drop)]
pub struct SyfCommand {
    /// The source's file, whose name ends in `.fsm`.
    pub source: FileName,
    /// The name of the text, without `.vbe`.
    pub out: FileName,
    /// How the states get their codes, and the seed of the random words.
    pub encoding: Encoding,
    pub seed: u32,
}

/// How `syf` is called.
pub const SYF_ENTRY: Entry = Entry {
    word: "syf",
    endings: &[".fsm"],
    settings: &[OUT, ENCODING, SEED],
};

impl FromValues for SyfCommand {
    ghost use Rattle.syf_run.specs.Words.{syf_from};

    ghost asked = { syf_from };

    fn from_values(alloc: Global, values: &Values) -> Result<Self, WordsError> {
        Ok(SyfCommand {
            source: source(alloc, values, SYF_ENTRY.endings)?,
            out: text(alloc, values, OUT)?,
            encoding: encoding_given(values)?,
            seed: number(values, SEED)?,
        })
    }
}
