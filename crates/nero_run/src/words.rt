// The words of `nero`, and what they ask of it.
ghost use Rattle.std.specs.Prelude.{◌≡◌, ◌≤◌};

use flow_words::METALS;
use std::alloc::Global;
use std::marker::Model;
use tool_words::{
    Entry, Form, FromValues, LIBRARY, OUT, Setting, Values, WordsError, number, source, text,
};
use vlsi_base::FileName;

/// What `nero` is asked to do: to route the nets of a netlist over its placement. Contracts see what is asked; metals are 4 to 6.
#[derive(Drop)]
pub struct NeroCommand {
    pub(crate) source: FileName,
    pub(crate) placed: FileName,
    pub(crate) library: FileName,
    pub(crate) out: FileName,
    pub(crate) metals: u32,
}

impl Model for NeroCommand {
    ghost use Rattle.nero_run.specs.Asked.{Asked, AreMetals};

    ghost Value = { Asked };

    ghost view = { λ a. record { source = a.source; placed = a.placed; library = a.library; out = a.out; metals = a.metals } };

    ghost invariant = { λ a. AreMetals a.metals };
}

impl NeroCommand {
    /// The name of the layout, without its ending.
    pub fn out(&self) -> &FileName
        ensures { result.now ≡ self.now.out }
    {
        &self.out
    }

    /// The highest metal of routes.
    pub fn metals(&self) -> u32
        ensures metals { result ≡ self.now.metals }
        ensures range { (4 ≤ result) × (result ≤ 6) }
    {
        self.metals
    }
}

/// The layout of the placement.
pub const PLACED: Setting = Setting {
    name: "placed",
    letter: Some(b'p'),
    value: "PLACED",
    required: true,
    form: Form::Ending(".ap"),
};

/// How `nero` is called.
pub const NERO_ENTRY: Entry = Entry {
    word: "nero",
    endings: &[".vst"],
    settings: &[PLACED, LIBRARY, OUT, METALS],
};

impl FromValues for NeroCommand {
    ghost use Rattle.nero_run.specs.Words.{nero_from};

    ghost asked = { nero_from };

    fn from_values(alloc: Global, values: &Values) -> Result<Self, WordsError> {
        Ok(NeroCommand {
            source: source(alloc, values, NERO_ENTRY.endings)?,
            placed: text(alloc, values, PLACED)?,
            library: text(alloc, values, LIBRARY)?,
            out: text(alloc, values, OUT)?,
            metals: number(values, METALS)?,
        })
    }
}
