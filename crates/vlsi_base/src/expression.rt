// Expressions as they are written, which parsing gives.

use crate::{Radix, Range, Text};

/// The operators that stand between two operands.
#[derive(Clone, Copy, PartialEq, Eq)]
pub enum Operator {
    And,
    Or,
    Xor,
    Xnor,
    Nand,
    Nor,
    /// `=`
    Equal,
    /// `/=`
    Unequal,
    /// `&`, one vector behind another
    Join,
}

/// An expression as it is written, with names in lower case. Lines are counted from 1: that of a name, of a literal, of an
/// operator's token. A line is the first number behind a name or a literal.
#[derive(Drop)]
pub enum ParsedExpr {
    /// `'0'` or `'1'`
    Bit(bool, u32),
    /// A text of 0 and 1, or a bit string: its digits from the left, in the spelling of the text, perhaps none.
    Literal(Radix, Text, u32),
    /// A name by itself.
    Name(Text, u32),
    /// A bit of a name: the name, its line, the bit's number.
    Index(Text, u32, u32),
    /// Bits of a name: the name, its line, the range.
    Slice(Text, u32, Range),
    /// `name'stable`
    Stable(Text, u32),
    /// The line of `not`, and what it turns round.
    Not(u32, Box<ParsedExpr>),
    /// The operator, its line, and the two operands.
    Binary(Operator, u32, Box<ParsedExpr>, Box<ParsedExpr>),
    /// Operands joined by one operator, grouped from the left: the first, and one or more others, each with the
    /// line of the operator before it.
    Chain(Operator, Box<ParsedExpr>, Vec<(u32, ParsedExpr)>),
}
