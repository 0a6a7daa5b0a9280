// What a tool's words may be: its word, its SOURCE and its options; and the options that several tools have.

/// What an option's value is.
#[derive(Clone, Copy)]
pub enum Form {
    /// It has none: the option is a flag.
    Flag,
    /// Any text.
    Text,
    /// A text with this ending.
    Ending(&'static str),
    /// A number in decimal digits, from the first to the second; and the number that stands for it where it is left out, if one does.
    Number(u32, u32, Option<u32>),
}

/// An option: its name; the letter that spells it, where the name itself doesn't; how the usage line calls its value; whether it has to
/// stand among the words; and what its value is. It stands there at most once.
#[derive(Clone, Copy)]
pub struct Setting {
    pub name: &'static str,
    pub letter: Option<u8>,
    pub value: &'static str,
    pub required: bool,
    pub form: Form,
}

/// A tool: its word, the endings of which its SOURCE has one, and its options. Without endings it has no SOURCE.
#[derive(Clone, Copy)]
pub struct Entry {
    pub word: &'static str,
    pub endings: &'static [&'static str],
    pub settings: &'static [Setting],
}

/// The folder of the library.
pub const LIBRARY: Setting = Setting {
    name: "library",
    letter: Some(b'l'),
    value: "DIR",
    required: true,
    form: Form::Text,
};

/// The name of the file that is written, without its ending.
pub const OUT: Setting = Setting {
    name: "out",
    letter: Some(b'o'),
    value: "NAME",
    required: true,
    form: Form::Text,
};

/// How states get their codes: `o`, `r` or `j`.
pub const ENCODING: Setting = Setting {
    name: "encoding",
    letter: Some(b'e'),
    value: "o|r|j",
    required: false,
    form: Form::Text,
};

/// Of random words.
pub const SEED: Setting = Setting {
    name: "seed",
    letter: None,
    value: "0..4294967295",
    required: false,
    form: Form::Number(0, u32::MAX, Some(0)),
};

/// The most nodes that a diagram may have.
pub const NODES: Setting = Setting {
    name: "nodes",
    letter: None,
    value: "1..4000000",
    required: false,
    form: Form::Number(1, 4_000_000, Some(200_000)),
};

/// The most sinks of a net: pins of cells that read it, but for clock pins.
pub const FANOUT: Setting = Setting {
    name: "fanout",
    letter: None,
    value: "4..1000000",
    required: false,
    form: Form::Number(4, 1_000_000, Some(32)),
};
