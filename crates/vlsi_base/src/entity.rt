// Entities and declarations of signals as they are written. All lines are counted from 1.

use crate::{Listed, Range, Text};

/// A name that is declared, and its line.
#[derive(Drop)]
pub struct NewName {
    pub text: Text,
    pub line: u32,
}

/// Names that one declaration declares, in their order.
pub type NewNames = Listed<NewName>;

/// Generics of one type: the line of the first token, the names, the type, and the number behind `:=`.
#[derive(Drop)]
pub struct Generic {
    pub line: u32,
    pub names: NewNames,
    pub kind: Text,
    pub value: Option<u32>,
}

/// Generics in their order.
pub type Generics = Listed<Generic>;

/// The direction of a port as it is written.
#[derive(Clone, Copy, PartialEq, Eq)]
pub enum Mode {
    In,
    Out,
    Inout,
}

/// The word of a signal's type.
#[derive(Clone, Copy, PartialEq, Eq)]
pub enum TypeWord {
    Bit,
    BitVector,
    MuxBit,
    MuxVector,
    WorBit,
    WorVector,
    RegBit,
    RegVector,
    RegBitVector,
}

/// A signal's type: its word, the word's line, and the range of a vector.
#[derive(Clone, Copy, PartialEq, Eq)]
pub struct SignalType {
    pub word: TypeWord,
    pub line: u32,
    pub range: Option<Range>,
}

/// Ports of one mode and type: the line of the first token, the names, the mode and its line, the type, and whether
/// `bus` stands behind it.
#[derive(Drop)]
pub struct PortGroup {
    pub line: u32,
    pub names: NewNames,
    pub mode: Mode,
    pub mode_line: u32,
    pub kind: SignalType,
    pub bus: bool,
}

/// The ports of an entity, in the order of the text.
pub type PortGroups = Listed<PortGroup>;

/// Signals of one type: the line of the word `signal`, the names, and the type. Signals are registers exactly with
/// the words `RegBit`, `RegVector` and `RegBitVector`.
#[derive(Drop)]
pub struct SignalGroup {
    pub line: u32,
    pub names: NewNames,
    pub kind: SignalType,
}

/// The signals that an architecture declares, in the order of the text.
pub type SignalGroups = Listed<SignalGroup>;

/// An entity.
#[derive(Drop)]
pub struct Entity {
    pub name: Text,
    pub generics: Generics,
    pub ports: PortGroups,
}

/// The declarations of an architecture.
#[derive(Drop)]
pub struct Declarations {
    pub signals: SignalGroups,
}
