// What stands at a place of a text.
ghost use Rattle.std.specs.Prelude.{◌≡◌, ◌<◌, length, map, take, codes, nat_eq, slice_index, true, IfOk, IfSome};
ghost use Rattle.std.specs.List.{starts_with};
ghost use Rattle.lexer_base.specs.Bytes.{is_in_word};
ghost use Rattle.lexer_base.specs.Lexical.{IsWithin};
ghost use Rattle.vhdl_lexer.specs.Lexical.{base_of, bit_string_at, word_at, comment_at, piece_at};

use crate::comment::pragma;
use lexer_base::{
    MOST_IDENTIFIER_BYTES, Piece, is_blank, line_length, lower, number, quotation, quoted_length,
    sign, word_length,
};
use std::alloc::{AllocError, Global};
use vhdl_token::{Keyword, Token};
use vlsi_base::{Radix, Text};

/// The base that a letter before a double quote stands for.
fn base_of(letter: u8) -> Option<Radix>
    ensures { result ≡ base_of letter }
{
    match letter.to_ascii_lowercase() {
        b'b' => Some(Radix::Binary),
        b'o' => Some(Radix::Octal),
        b'x' => Some(Radix::Hexadecimal),
        _ => None,
    }
}

/// The reserved word or identifier at the front of a text, which begins with a letter.
#[tactic(auto, unfolding(crate::specs::Lexical::word_at))]
fn word(alloc: Global, text: &[u8]) -> Result<Piece, AllocError>
    requires { is_in_word (slice_index text.now 0) ≡ true }
    ensures piece { IfOk result (λ piece. piece ≡ word_at text.now) }
    ensures within { IfOk result (λ piece. IsWithin piece text.now) }
{
    let length = word_length(text);
    if length > MOST_IDENTIFIER_BYTES {
        return Ok(Piece::TooLong(length));
    }
    let name = lower(alloc, &text[..length])?;
    match Keyword::from_word(name.as_bytes()) {
        Some(keyword) => Ok(Piece::Token(Token::Keyword(keyword), length)),
        None => Ok(Piece::Token(Token::Identifier(name), length)),
    }
}

/// A bit string at the front of a text, if there is one.
#[tactic(auto, unfolding(crate::specs::Lexical::bit_string_at))]
fn bit_string(alloc: Global, text: &[u8]) -> Result<Option<Piece>, AllocError>
    ensures piece { IfOk result (λ piece. piece ≡ bit_string_at text.now) }
    ensures within { IfOk result (λ found. IfSome found (λ piece. IsWithin piece text.now)) }
{
    if text.len() < 2 || text[1] != b'"' {
        return Ok(None);
    }
    let Some(base) = base_of(text[0]) else {
        return Ok(None);
    };
    let Some(length) = quoted_length(&text[2..]) else {
        return Ok(None);
    };
    let digits = Text::from_bytes(alloc, &text[2..2 + length])?;
    Ok(Some(Piece::Token(Token::BitString(base, digits), length + 3)))
}

/// The comment at the front of a text, which begins with two dashes.
#[tactic(auto, unfolding(crate::specs::Lexical::comment_at))]
fn comment(alloc: Global, text: &[u8]) -> Result<Piece, AllocError>
    requires { starts_with nat_eq text.now (codes "--") ≡ true }
    ensures piece { IfOk result (λ piece. piece ≡ comment_at text.now) }
    ensures within { IfOk result (λ piece. IsWithin piece text.now) }
{
    let length = line_length(text);
    match pragma(alloc, &text[2..length])? {
        Some((key, name)) => Ok(Piece::Pragma(key, name, length)),
        None => Ok(Piece::Comment(length)),
    }
}

/// The longest piece at the front of a text.
#[tactic(auto, unfolding(crate::specs::Lexical::piece_at))]
pub fn first_piece(alloc: Global, text: &[u8]) -> Result<Piece, AllocError>
    requires { 0 < length text.now }
    ensures piece { IfOk result (λ piece. piece ≡ piece_at text.now) }
    ensures within { IfOk result (λ piece. IsWithin piece text.now) }
{
    let first = text[0];
    if is_blank(first) || first == b'\r' {
        return Ok(Piece::Blank);
    }
    if first == b'\n' {
        return Ok(Piece::NewLine);
    }
    if first.is_ascii_alphabetic() {
        return match bit_string(alloc, text)? {
            Some(piece) => Ok(piece),
            None => word(alloc, text),
        };
    }
    if first.is_ascii_digit() {
        return Ok(number(text));
    }
    if first == b'"' {
        return quotation(alloc, text);
    }
    if text.starts_with(b"--") {
        return comment(alloc, text);
    }
    if text.starts_with(b"'0'") {
        return Ok(Piece::Token(Token::Bit(false), 3));
    }
    if text.starts_with(b"'1'") {
        return Ok(Piece::Token(Token::Bit(true), 3));
    }
    Ok(sign(text))
}
