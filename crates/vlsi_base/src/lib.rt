//! The vocabulary that the crates share: texts and their lines, names with a bit, ports, faults and limits of input, decimal numbers,
//! the kinds of gates that mapping needs.
#![tactic(auto)]

mod entity;
mod expression;
mod fault;
mod kind;
mod laws;
mod limits;
mod lines;
mod listed;
mod name;
mod name_index;
mod number;
mod pragma;
mod radix;
mod range;
mod text;

pub use entity::{
    Declarations, Entity, Generic, Generics, Mode, NewName, NewNames, PortGroup, PortGroups,
    SignalGroup, SignalGroups, SignalType, TypeWord,
};
pub use expression::{Operator, ParsedExpr};
pub use fault::{FaultKind, InputFault, Limit, LimitKind, ReadError};
pub use kind::Kind;
pub use laws::numbers_are_read_again;
pub use limits::{MOST_NETLIST_BYTES, MOST_SOURCE_BYTES};
pub use lines::{Lines, without_return};
pub use listed::Listed;
pub use name::{Dir, Name, Names, Port, Ports, Terminal, is_supply};
pub use name_index::NameIndex;
pub use number::{push_u64, read_u64};
pub use pragma::{Pragma, Pragmas};
pub use radix::Radix;
pub use range::Range;
pub use text::{FileBytes, FileName, Text, Texts};
