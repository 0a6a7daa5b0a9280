// The words of `flow` and `gen`, and what they ask of them.
ghost use Rattle.std.specs.Prelude.{◌≡◌, Some, None, IfOk, IsErrOf};
ghost use Rattle.tool_words.specs.declared.words.WordsError.TheVariants.{Usage};
ghost use Rattle.flow_words.specs.Words.{numbers_of, flow_on};

use std::alloc::Global;
use tool_words::{
    ENCODING, Encoding, Entry, FANOUT, Form, FromValues, LIBRARY, NODES, OUT, SEED, Setting,
    Values, WordsError, encoding_given, is_set, number, number_if_given, source, text,
};
use vlsi_base::FileName;

/// What `flow` is asked to do: to lay the source out with the cells of the library.
#[derive(Drop)]
pub struct FlowCommand {
    /// The source's file, whose name ends in `.vbe` or `.fsm`.
    pub source: FileName,
    /// The folder of the library.
    pub library: FileName,
    /// The name of the layout, without `.ap`.
    pub out: FileName,
    /// How the states of a source in `.fsm` get their codes.
    pub encoding: Encoding,
    /// Whether each net has a track of its own, above one row of cells; else nets are routed over the rows.
    pub tracks: bool,
    /// How many rows the cells stand in, 1 to 256, where the words say so; else as many as make a square block. Without effect beside
    /// tracks.
    pub rows: Option<u32>,
    /// The highest metal on which nets are routed, 4 to 6; without effect beside tracks.
    pub metals: u32,
    /// The seed of the random words.
    pub seed: u32,
    /// How often the placement is tried to be made better, at most 1,000,000 times; without effect beside tracks.
    pub moves: u32,
    /// The most nodes that a diagram may have, 1 to 4,000,000.
    pub nodes: u32,
    /// The most sinks of a net, 4 to 1,000,000: pins of cells that read it, but for clock pins.
    pub fanout: u32,
}

/// What `gen` is asked to do: to write a source, and to lay it out as `flow` does.
#[derive(Drop)]
pub struct GenCommand {
    /// How large the source is, 8 to 4,000.
    pub size: u32,
    /// What `flow` is asked to do with it. The source is NAME.vbe, and the seed is also that of its text.
    pub flow: FlowCommand,
}

// That each net has a track of its own.
const TRACKS: Setting = Setting {
    name: "tracks",
    letter: None,
    value: "",
    required: false,
    form: Form::Flag,
};

/// How many rows of cells; where it is left out, as many as make a square block.
pub const ROWS: Setting = Setting {
    name: "rows",
    letter: None,
    value: "1..256",
    required: false,
    form: Form::Number(1, 256, None),
};

/// How many metals.
pub const METALS: Setting = Setting {
    name: "metals",
    letter: None,
    value: "4..6",
    required: false,
    form: Form::Number(4, 6, Some(6)),
};

/// How often the placement is tried to be made better.
pub const MOVES: Setting = Setting {
    name: "moves",
    letter: None,
    value: "0..1000000",
    required: false,
    form: Form::Number(0, 1_000_000, Some(10_000)),
};

// How large a source is made.
const SIZE: Setting = Setting {
    name: "size",
    letter: None,
    value: "8..4000",
    required: true,
    form: Form::Number(8, 4_000, None),
};

/// How `flow` is called.
pub const FLOW_ENTRY: Entry = Entry {
    word: "flow",
    endings: &[".vbe", ".fsm"],
    settings: &[
        LIBRARY, OUT, ENCODING, TRACKS, ROWS, METALS, SEED, MOVES, NODES, FANOUT,
    ],
};

/// How `gen` is called.
pub const GEN_ENTRY: Entry = Entry {
    word: "gen",
    endings: &[],
    settings: &[
        SIZE, LIBRARY, OUT, TRACKS, ROWS, METALS, SEED, MOVES, NODES, FANOUT,
    ],
};

// The numbers that both have.
#[derive(Clone, Copy)]
struct Numbers {
    rows: Option<u32>,
    metals: u32,
    seed: u32,
    moves: u32,
    nodes: u32,
    fanout: u32,
}

fn read_numbers(values: &Values) -> Result<Numbers, WordsError>
    ensures ok { IfOk result (λ n. numbers_of values.now ≡ Some n) }
    ensures usage { IsErrOf result Usage → numbers_of values.now ≡ None }
{
    Ok(Numbers {
        rows: number_if_given(values, ROWS)?,
        metals: number(values, METALS)?,
        seed: number(values, SEED)?,
        moves: number(values, MOVES)?,
        nodes: number(values, NODES)?,
        fanout: number(values, FANOUT)?,
    })
}

// What `flow` is asked to do with a source and an encoding.
fn flow_with(
    alloc: Global,
    source: FileName,
    encoding: Encoding,
    values: &Values,
) -> Result<FlowCommand, WordsError>
    ensures ok { IfOk result (λ flow. flow_on (Some source) (Some encoding) values.now ≡ Some flow) }
    ensures usage { IsErrOf result Usage → flow_on (Some source) (Some encoding) values.now ≡ None }
{
    let tracks = is_set(values, TRACKS);
    let numbers = read_numbers(values)?;
    Ok(FlowCommand {
        source,
        library: text(alloc, values, LIBRARY)?,
        out: text(alloc, values, OUT)?,
        encoding,
        tracks,
        rows: numbers.rows,
        metals: numbers.metals,
        seed: numbers.seed,
        moves: numbers.moves,
        nodes: numbers.nodes,
        fanout: numbers.fanout,
    })
}

impl FromValues for FlowCommand {
    ghost use Rattle.flow_words.specs.Words.{flow_from};

    ghost asked = { flow_from };

    fn from_values(alloc: Global, values: &Values) -> Result<Self, WordsError> {
        let source = source(alloc, values, FLOW_ENTRY.endings)?;
        let encoding = encoding_given(values)?;
        flow_with(alloc, source, encoding, values)
    }
}

impl FromValues for GenCommand {
    ghost use Rattle.flow_words.specs.Words.{gen_from};

    ghost asked = { gen_from };

    fn from_values(alloc: Global, values: &Values) -> Result<Self, WordsError> {
        let size = number(values, SIZE)?;
        let mut source = text(alloc, values, OUT)?;
        source.append(b".vbe")?;
        let flow = flow_with(alloc, source, Encoding::Adjacent, values)?;
        Ok(GenCommand { size, flow })
    }
}
