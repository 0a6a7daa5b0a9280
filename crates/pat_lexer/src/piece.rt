// What stands at a place of a text.
ghost use Rattle.std.specs.Prelude.{◌≡◌, ◌<◌, length, codes, nat_eq, slice_index, true, IfOk};
ghost use Rattle.std.specs.List.{starts_with};
ghost use Rattle.vhdl_token.specs.Keyword.{keyword_of};
ghost use Rattle.lexer_base.specs.Bytes.{is_in_word};
ghost use Rattle.lexer_base.specs.Lexical.{IsWithin};
ghost use Rattle.pat_lexer.specs.Lexical.{is_letter_or_digit as is_letter_or_digit_byte, value_behind, digits_at, word_token as token_of_word, word_at, comment_at, piece_at};

use crate::bytes::{is_letter_or_digit, letters_and_digits};
use lexer_base::{
    MOST_IDENTIFIER_BYTES, Piece, is_blank, line_length, lower, number, quotation, sign,
    word_length,
};
use std::alloc::{AllocError, Global};
use vhdl_token::{Keyword, Sign, Token};
use vlsi_base::Text;

/// The token that a word in lower case is: only in, out, begin and end mean something.
fn word_token(name: Text) -> Token
    ensures { result ≡ token_of_word (keyword_of name) name }
{
    match Keyword::from_word(name.as_bytes()) {
        Some(Keyword::In) => Token::Keyword(Keyword::In),
        Some(Keyword::Out) => Token::Keyword(Keyword::Out),
        Some(Keyword::Begin) => Token::Keyword(Keyword::Begin),
        Some(Keyword::End) => Token::Keyword(Keyword::End),
        _ => Token::Identifier(name),
    }
}

/// The word at the front of a text, which begins with a letter.
#[tactic(auto, unfolding(crate::specs::Lexical::word_at))]
fn word(alloc: Global, text: &[u8]) -> Result<Piece, AllocError>
    requires { is_in_word (slice_index text.now 0) ≡ true }
    ensures piece { IfOk result (λ piece. piece ≡ word_at text.now) }
    ensures within { IfOk result (λ piece. IsWithin piece text.now) }
{
    let length = word_length(text);
    if length > MOST_IDENTIFIER_BYTES {
        return Ok(Piece::TooLong(length));
    }
    let name = lower(alloc, &text[..length])?;
    Ok(Piece::Token(word_token(name), length))
}

/// The digits of a value at the front of a text, which begins with a letter or a digit.
#[tactic(auto, unfolding(crate::specs::Lexical::digits_at))]
fn value_digits(alloc: Global, text: &[u8]) -> Result<Piece, AllocError>
    requires { is_letter_or_digit_byte (slice_index text.now 0) ≡ true }
    ensures piece { IfOk result (λ piece. piece ≡ digits_at text.now) }
    ensures within { IfOk result (λ piece. IsWithin piece text.now) }
{
    let length = letters_and_digits(text);
    let name = lower(alloc, &text[..length])?;
    Ok(Piece::Token(Token::Digits(name), length))
}

/// The comment at the front of a text, which begins with two dashes.
#[tactic(auto, unfolding(crate::specs::Lexical::comment_at))]
fn comment(text: &[u8]) -> Piece
    requires { starts_with nat_eq text.now (codes "--") ≡ true }
    ensures piece { result ≡ comment_at text.now }
    ensures within { IsWithin result text.now }
{
    Piece::Comment(line_length(text))
}

/// The longest piece at the front of a text, where values stand or elsewhere.
#[tactic(auto, unfolding(crate::specs::Lexical::piece_at))]
pub fn first_piece(alloc: Global, is_value: bool, text: &[u8]) -> Result<Piece, AllocError>
    requires { 0 < length text.now }
    ensures piece { IfOk result (λ piece. piece ≡ piece_at is_value text.now) }
    ensures within { IfOk result (λ piece. IsWithin piece text.now) }
{
    let first = text[0];
    if is_blank(first) || first == b'\r' {
        return Ok(Piece::Blank);
    }
    if first == b'\n' {
        return Ok(Piece::NewLine);
    }
    if is_value && is_letter_or_digit(first) {
        return value_digits(alloc, text);
    }
    if first.is_ascii_alphabetic() {
        return word(alloc, text);
    }
    if first.is_ascii_digit() {
        return Ok(number(text));
    }
    if first == b'"' {
        return quotation(alloc, text);
    }
    if text.starts_with(b"--") {
        return Ok(comment(text));
    }
    Ok(sign(text))
}

/// Whether values stand behind a piece: they do behind a colon, up to the next semicolon.
pub fn is_value_behind(piece: &Piece, is_value: bool) -> bool
    ensures { result ≡ value_behind piece.now is_value }
{
    match piece {
        Piece::Token(Token::Sign(Sign::Colon), _) => true,
        Piece::Token(Token::Sign(Sign::Semicolon), _) => false,
        _ => is_value,
    }
}
