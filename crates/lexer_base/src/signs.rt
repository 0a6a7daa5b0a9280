// The signs.
ghost use Rattle.std.specs.Prelude.{◌≡◌, ◌<◌, ◌≤◌, length, IfSome};
ghost use Rattle.vhdl_token.specs.Signs.{sign_text};
ghost use Rattle.lexer_base.specs.Lexical.{IsWithin, sign_among, sign_at};

use crate::piece::Piece;
use vhdl_token::{Sign, Token};

/// The signs, each before those that it begins with.
static SIGNS: [Sign; 18] = [
    Sign::Assign,
    Sign::Arrow,
    Sign::Default,
    Sign::Unequal,
    Sign::LeftParen,
    Sign::RightParen,
    Sign::Comma,
    Sign::Semicolon,
    Sign::Colon,
    Sign::Equal,
    Sign::Ampersand,
    Sign::Bar,
    Sign::Tick,
    Sign::Less,
    Sign::Greater,
    Sign::Plus,
    Sign::Question,
    Sign::Star,
];

/// The first of these signs with which a text begins.
fn sign_among(signs: &[Sign], text: &[u8]) -> Option<Sign>
    ensures first { result ≡ sign_among text.now signs.now }
    ensures within { IfSome result (λ s. length (sign_text s) ≤ length text.now) }
{
    for sign in signs {
        if text.starts_with(sign.as_str().as_bytes()) {
            return Some(*sign);
        }
    }
    None
}

/// The sign at the front of a text, the longest that stands there. Takes no memory.
#[tactic(auto, unfolding(crate::specs::Lexical::sign_at))]
pub fn sign(text: &[u8]) -> Piece
    requires { 0 < length text.now }
    ensures piece { result ≡ sign_at text.now }
    ensures within { IsWithin result text.now }
{
    match sign_among(&SIGNS, text) {
        Some(sign) => Piece::Token(Token::Sign(sign), sign.as_str().len()),
        None => Piece::Bad,
    }
}
