// Tokens.
ghost use Rattle.std.specs.Prelude.{◌≡◌};
ghost use Rattle.vhdl_token.specs.Signs.{sign_text};

use crate::Keyword;
use vlsi_base::{Listed, Pragmas, Radix, Text};

/// A sign of punctuation or an operator's sign.
#[derive(Clone, Copy, PartialEq, Eq)]
pub enum Sign {
    /// `(`
    LeftParen,
    /// `)`
    RightParen,
    /// `,`
    Comma,
    /// `;`
    Semicolon,
    /// `:`
    Colon,
    /// `<=`
    Assign,
    /// `=>`
    Arrow,
    /// `:=`
    Default,
    /// `=`
    Equal,
    /// `/=`
    Unequal,
    /// `&`
    Ampersand,
    /// `|`
    Bar,
    /// `'`
    Tick,
    /// `<`
    Less,
    /// `>`
    Greater,
    /// `+`
    Plus,
    /// `?`
    Question,
    /// `*`
    Star,
}

impl Sign {
    /// The sign as it is spelled. Takes no memory.
    pub fn as_str(self) -> &'static str
        ensures { result.now ≡ sign_text self }
    {
        match self {
            Sign::LeftParen => "(",
            Sign::RightParen => ")",
            Sign::Comma => ",",
            Sign::Semicolon => ";",
            Sign::Colon => ":",
            Sign::Assign => "<=",
            Sign::Arrow => "=>",
            Sign::Default => ":=",
            Sign::Equal => "=",
            Sign::Unequal => "/=",
            Sign::Ampersand => "&",
            Sign::Bar => "|",
            Sign::Tick => "'",
            Sign::Less => "<",
            Sign::Greater => ">",
            Sign::Plus => "+",
            Sign::Question => "?",
            Sign::Star => "*",
        }
    }
}

/// The smallest part of a text that means something.
#[derive(Drop)]
pub enum Token {
    /// A letter, then letters, digits and underscores, at most 64 bytes together, in lower case; no word that is reserved in
    /// its kind of text.
    Identifier(Text),
    Keyword(Keyword),
    Number(u32),
    /// `'0'` or `'1'`
    Bit(bool),
    /// What stands between two double quotes.
    Quoted(Text),
    /// A base and what stands between the double quotes, which may be no digits of that base.
    BitString(Radix, Text),
    /// In a pattern file a run of letters and digits between a colon and the next semicolon, of any length, in lower case.
    Digits(Text),
    Sign(Sign),
}

/// A token and the line on which it begins, counted from 1.
#[derive(Drop)]
pub struct PlacedToken {
    pub token: Token,
    pub line: u32,
}

/// Tokens in file order.
pub type PlacedTokens = Listed<PlacedToken>;

/// A whole text: its tokens, its pragmas, which are no tokens, and the line on which its end stands.
#[derive(Drop)]
pub struct Tokens {
    pub items: PlacedTokens,
    pub pragmas: Pragmas,
    pub last_line: u32,
}
