// Texts between double quotes.
ghost use Rattle.std.specs.Prelude.{◌≡◌, ◌<◌, length, IfOk, IfSome};
ghost use Rattle.lexer_base.specs.Lexical.{IsWithin, quoted_length, quotation_at};

use crate::bytes::quoted;
use crate::piece::Piece;
use std::alloc::{AllocError, Global};
use vhdl_token::Token;
use vlsi_base::Text;

/// How many bytes stand before the double quote that closes a text on its line, if one does. The text goes on behind the
/// quote that opens it. Takes no memory.
#[tactic(auto, unfolding(crate::specs::Lexical::quoted_length))]
pub fn quoted_length(text: &[u8]) -> Option<usize>
    ensures count { result ≡ quoted_length text.now }
    ensures within { IfSome result (λ n. n < length text.now) }
{
    let length = quoted(text);
    if length < text.len() && text[length] == b'"' {
        Some(length)
    } else {
        None
    }
}

/// The text between double quotes at the front of a text, which begins with one. Takes memory for its bytes.
#[tactic(auto, unfolding(crate::specs::Lexical::quotation_at))]
pub fn quotation(alloc: Global, text: &[u8]) -> Result<Piece, AllocError>
    requires { 0 < length text.now }
    ensures piece { IfOk result (λ piece. piece ≡ quotation_at text.now) }
    ensures within { IfOk result (λ piece. IsWithin piece text.now) }
{
    match quoted_length(&text[1..]) {
        Some(length) => {
            let inside = Text::from_bytes(alloc, &text[1..1 + length])?;
            Ok(Piece::Token(Token::Quoted(inside), length + 2))
        }
        None => Ok(Piece::Bad),
    }
}
