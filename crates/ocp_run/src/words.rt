// The words of `ocp`, and what they ask of it.
use flow_words::{MOVES, ROWS};
use std::alloc::Global;
use std::marker::Model;
use tool_words::{
    Entry, FromValues, LIBRARY, OUT, SEED, Values, WordsError, number, number_if_given, source,
    text,
};
use vlsi_base::FileName;

/// What `ocp` is asked to do: to place a netlist of the library's cells. Contracts see what is asked; rows are 1 to 256, where the words
/// say how many.
#[derive(Drop)]
pub struct OcpCommand {
    pub(crate) source: FileName,
    pub(crate) library: FileName,
    pub(crate) out: FileName,
    pub(crate) rows: Option<u32>,
    pub(crate) seed: u32,
    pub(crate) moves: u32,
}

impl Model for OcpCommand {
    ghost use Rattle.ocp_run.specs.Asked.{Asked, AreRows};

    ghost Value = { Asked };

    ghost view = { λ a. record { source = a.source; library = a.library; out = a.out; rows = a.rows; seed = a.seed; moves = a.moves } };

    ghost invariant = { λ a. AreRows a.rows };
}

/// How `ocp` is called.
pub const OCP_ENTRY: Entry = Entry {
    word: "ocp",
    endings: &[".vst"],
    settings: &[LIBRARY, OUT, ROWS, SEED, MOVES],
};

impl FromValues for OcpCommand {
    ghost use Rattle.ocp_run.specs.Words.{ocp_from};

    ghost asked = { ocp_from };

    fn from_values(alloc: Global, values: &Values) -> Result<Self, WordsError> {
        Ok(OcpCommand {
            source: source(alloc, values, OCP_ENTRY.endings)?,
            library: text(alloc, values, LIBRARY)?,
            out: text(alloc, values, OUT)?,
            rows: number_if_given(values, ROWS)?,
            seed: number(values, SEED)?,
            moves: number(values, MOVES)?,
        })
    }
}
