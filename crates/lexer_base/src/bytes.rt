// Bytes, and how many of a kind stand at the front of a text.
ghost use Rattle.std.specs.Prelude.{◌≡◌, ◌≤◌, length, map, IfOk};
ghost use Rattle.std.specs.List.{prefix_len};
ghost use Rattle.std.specs.Char.{to_ascii_lowercase, is_ascii_digit};
ghost use Rattle.lexer_base.specs.Bytes.{is_blank, is_in_word, is_in_quotes, is_on_line};

use std::alloc::{AllocError, Global};
use vlsi_base::Text;

/// Whether the byte is a space or a tab.
pub fn is_blank(byte: u8) -> bool
    ensures { result ≡ is_blank byte }
{
    byte == b' ' || byte == b'\t'
}

/// Whether the byte is a letter, a digit or an underscore.
pub fn is_in_word(byte: u8) -> bool
    ensures { result ≡ is_in_word byte }
{
    byte.is_ascii_alphabetic() || byte.is_ascii_digit() || byte == b'_'
}

fn is_in_quotes(byte: u8) -> bool
    ensures { result ≡ is_in_quotes byte }
{
    byte != b'"' && byte != b'\n'
}

/// How many letters, digits and underscores a text begins with.
pub fn word_length(text: &[u8]) -> usize
    ensures count { result ≡ prefix_len is_in_word text.now }
    ensures within { result ≤ length text.now }
{
    text.iter().take_while(|byte| is_in_word(**byte)).count()
}

/// How many decimal digits a text begins with.
pub fn digits(text: &[u8]) -> usize
    ensures count { result ≡ prefix_len is_ascii_digit text.now }
    ensures within { result ≤ length text.now }
{
    text.iter().take_while(|byte| byte.is_ascii_digit()).count()
}

/// How many bytes a text begins with that may stand between double quotes.
pub fn quoted(text: &[u8]) -> usize
    ensures count { result ≡ prefix_len is_in_quotes text.now }
    ensures within { result ≤ length text.now }
{
    text.iter().take_while(|byte| is_in_quotes(**byte)).count()
}

/// How many bytes stand before the end of the line.
pub fn line_length(text: &[u8]) -> usize
    ensures count { result ≡ prefix_len is_on_line text.now }
    ensures within { result ≤ length text.now }
{
    text.iter().take_while(|byte| **byte != b'\n').count()
}

/// The text in lower case. Takes memory for its bytes.
pub fn lower(alloc: Global, text: &[u8]) -> Result<Text, AllocError>
    ensures { IfOk result (λ made. made ≡ map to_ascii_lowercase text.now) }
{
    let bytes: Vec<u8> = text
        .iter()
        .map(|byte| byte.to_ascii_lowercase())
        .collect(alloc)?;
    Ok(Text::new(bytes))
}
