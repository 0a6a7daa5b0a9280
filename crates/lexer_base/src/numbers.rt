// Numbers.
ghost use Rattle.std.specs.Prelude.{◌≡◌, ◌-◌, ◌^◌, min, slice_index, true};
ghost use Rattle.std.specs.Char.{is_ascii_digit};
ghost use Rattle.vlsi_base.specs.Number.{value_of};
ghost use Rattle.lexer_base.specs.Lexical.{IsWithin, number_at};

use crate::bytes::digits;
use crate::piece::Piece;
use vhdl_token::Token;

/// The number that digits spell, or the greatest of the type where that is less.
fn saturating_value(digits: &[u8]) -> u64
    ensures { result ≡ min (value_of digits.now) (2 ^ 64 - 1) }
{
    let mut value = 0u64;
    for digit in digits {
        value = value
            .saturating_mul(10)
            .saturating_add(u64::from(digit.saturating_sub(b'0')));
    }
    value
}

/// The number at the front of a text, which begins with a digit. Takes no memory.
#[tactic(auto, unfolding(crate::specs::Lexical::number_at))]
pub fn number(text: &[u8]) -> Piece
    requires { is_ascii_digit (slice_index text.now 0) ≡ true }
    ensures piece { result ≡ number_at text.now }
    ensures within { IsWithin result text.now }
{
    let length = digits(text);
    let value = saturating_value(&text[..length]);
    match u32::try_from(value) {
        Ok(number) => Piece::Token(Token::Number(number), length),
        Err(_) => Piece::TooGreat(value),
    }
}
