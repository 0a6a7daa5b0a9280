// What a grammar asks of a token.
ghost use Rattle.std.specs.Prelude.{◌≡◌};
ghost use Rattle.std.specs.List.{list_all};
ghost use Rattle.grammar_theory.specs.Tokens.{code, is_of, form_of, is_bit as is_bit_digit, is_digit_of};

use vhdl_token::{Keyword, PlacedToken, Sign, Token};
use vlsi_base::Radix;

/// What a grammar asks of a token: its kind, and of a text whether it spells bits.
#[derive(Clone, Copy, PartialEq, Eq)]
pub enum Form {
    Identifier,
    Keyword(Keyword),
    Number,
    Bit,
    /// A text of 0 and 1, perhaps empty.
    BitText,
    OtherText,
    /// A bit string whose digits are all of its base, perhaps without any.
    BitString,
    OtherBitString,
    /// The digits of a pattern.
    Digits,
    Sign(Sign),
}

impl Form {
    /// The form of a token. Takes no memory, and time in the length of a text between quotes.
    pub fn of(token: &Token) -> Form
        ensures { result ≡ form_of token.now }
    {
        match token {
            Token::Identifier(_) => Form::Identifier,
            Token::Keyword(word) => Form::Keyword(*word),
            Token::Number(_) => Form::Number,
            Token::Bit(_) => Form::Bit,
            Token::Quoted(text) => {
                if is_bits(text.as_bytes()) {
                    Form::BitText
                } else {
                    Form::OtherText
                }
            }
            Token::BitString(base, digits) => {
                if are_digits(*base, digits.as_bytes()) {
                    Form::BitString
                } else {
                    Form::OtherBitString
                }
            }
            Token::Digits(_) => Form::Digits,
            Token::Sign(sign) => Form::Sign(*sign),
        }
    }

    /// Whether the token is of this form. Takes no memory, and time in the length of a text between quotes.
    #[tactic(auto, unfolding(crate::specs::Tokens::code_of))]
    pub fn fits(self, token: &PlacedToken) -> bool
        ensures { result ≡ is_of self token.now }
    {
        Form::of(&token.token).code() == self.code()
    }

    /// A number for each form.
    pub fn code(self) -> u8
        ensures { result ≡ code self }
    {
        match self {
            Form::Identifier => 0,
            Form::Number => 1,
            Form::Bit => 2,
            Form::BitText => 3,
            Form::OtherText => 4,
            Form::BitString => 5,
            Form::OtherBitString => 6,
            Form::Digits => 7,
            Form::Sign(sign) => 10 + sign as u8,
            Form::Keyword(word) => 40 + word as u8,
        }
    }
}

fn is_bit(c: u8) -> bool
    ensures { result ≡ is_bit_digit c }
{
    c == b'0' || c == b'1'
}

fn is_bits(text: &[u8]) -> bool
    ensures { result ≡ list_all is_bit_digit text.now }
{
    text.iter().all(|c| is_bit(*c))
}

fn is_digit(base: Radix, c: u8) -> bool
    ensures { result ≡ is_digit_of base c }
{
    match base {
        Radix::Binary => is_bit(c),
        Radix::Octal => (b'0'..=b'7').contains(&c),
        Radix::Hexadecimal => c.is_ascii_hexdigit(),
    }
}

fn are_digits(base: Radix, text: &[u8]) -> bool
    ensures { result ≡ list_all (is_digit_of base) text.now }
{
    text.iter().all(|c| is_digit(base, *c))
}
