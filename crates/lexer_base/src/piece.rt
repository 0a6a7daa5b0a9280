// What stands at a place of a text.
ghost use Rattle.std.specs.Prelude.{◌≡◌};
ghost use Rattle.lexer_base.specs.Lexical.{length_of};

use vhdl_token::Token;
use vlsi_base::Text;

/// The most bytes of an identifier.
pub const MOST_IDENTIFIER_BYTES: usize = 64;

/// What stands at a place of a text: a token or what may stand between tokens, with the number of its bytes, or why there
/// is no token.
#[derive(Drop)]
pub enum Piece {
    /// One space, tab or carriage return.
    Blank,
    /// The end of a line.
    NewLine,
    /// Two dashes and the rest of the line.
    Comment(usize),
    /// A comment that is a pragma, with its key and its name.
    Pragma(Text, Text, usize),
    Token(Token, usize),
    /// An identifier of more than 64 bytes, with its length.
    TooLong(usize),
    /// A number over 32 bits, or the greatest of 64 bits where that is less.
    TooGreat(u64),
    /// A byte that begins no token.
    Bad,
}

impl Piece {
    /// How many bytes it takes. A blank, the end of a line and what is refused take one.
    pub fn length(&self) -> usize
        ensures { result ≡ length_of self.now }
    {
        match self {
            Piece::Comment(length) => *length,
            Piece::Pragma(_, _, length) => *length,
            Piece::Token(_, length) => *length,
            _ => 1,
        }
    }
}
