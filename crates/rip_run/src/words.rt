// The words of `rip`, and what they ask of it.
use flow_words::METALS;
use nero_run::{NeroCommand, PLACED};
use std::alloc::Global;
use std::marker::Model;
use tool_words::{Entry, Form, FromValues, LIBRARY, OUT, Setting, Values, WordsError, number};

/// What `rip` is asked to do: to route the nets of a netlist over its placement, as `nero`, and to tear paths out so many times at most.
/// Contracts see what is asked.
#[derive(Drop)]
pub struct RipCommand {
    pub(crate) routing: NeroCommand,
    pub(crate) rips: u32,
}

impl Model for RipCommand {
    ghost use Rattle.rip_run.specs.Asked.{AskedRips};

    ghost Value = { AskedRips };

    ghost view = { λ a. record { routing = a.routing; rips = a.rips } };
}

// How often paths may be torn out.
const RIPS: Setting = Setting {
    name: "rips",
    letter: None,
    value: "0..10000",
    required: false,
    form: Form::Number(0, 10_000, Some(100)),
};

/// How `rip` is called.
pub const RIP_ENTRY: Entry = Entry {
    word: "rip",
    endings: &[".vst"],
    settings: &[PLACED, LIBRARY, OUT, METALS, RIPS],
};

impl FromValues for RipCommand {
    ghost use Rattle.rip_run.specs.Words.{rip_from};

    ghost asked = { rip_from };

    fn from_values(alloc: Global, values: &Values) -> Result<Self, WordsError> {
        Ok(RipCommand {
            routing: NeroCommand::from_values(alloc, values)?,
            rips: number(values, RIPS)?,
        })
    }
}
