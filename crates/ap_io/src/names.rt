// Identifiers, names and texts of a line.
ghost use Rattle.std.specs.Prelude.{◌≡◌, ◌≤◌, true, length, slice_index, bytes_eq, codes, IfOk};
ghost use Rattle.std.specs.List.{list_all, prefix_len};
ghost use Rattle.std.specs.Option.{option_copied, option_map};
ghost use Rattle.std.specs.Char.{is_ascii_alphabetic};
ghost use Rattle.vlsi_base.specs.Number.{value_of};
ghost use Rattle.ap_io.specs.Fields.{is_blank, is_text_byte, is_in_word, is_identifier, lower, word_of, behind_word, bit_digits, is_bit_of, is_label, label_of};
ghost use Rattle.ap_io.specs.LineFaults.{long_name, is_blank_line};

use crate::MOST_NAME_BYTES;
use crate::numbers::{is_digits, saturating_value};
use std::alloc::{AllocError, Global};
use vlsi_base::{Name, Text};

/// Whether a byte is a space or a tab.
pub fn is_blank(byte: u8) -> bool
    ensures { result ≡ is_blank byte }
{
    byte == b' ' || byte == b'\t'
}

/// Whether a line has blanks alone.
#[tactic(auto, unfolding(crate::specs::LineFaults::is_blank_line))]
pub fn is_blank_line(line: &[u8]) -> bool
    ensures { result ≡ is_blank_line line.now }
{
    line.iter().all(|byte| is_blank(*byte))
}

/// Whether a byte stands within a text: neither a line feed nor a carriage return.
fn is_text_byte(byte: u8) -> bool
    ensures { result ≡ is_text_byte byte }
{
    !(byte == b'\n' || byte == b'\r')
}

/// Whether each byte may stand within a text.
pub fn is_text(text: &[u8]) -> bool
    ensures { result ≡ list_all is_text_byte text.now }
{
    text.iter().all(|byte| is_text_byte(*byte))
}

/// Whether a byte is a letter, a digit or an underscore.
fn is_in_word(byte: u8) -> bool
    ensures { result ≡ is_in_word byte }
{
    byte.is_ascii_alphabetic() || byte.is_ascii_digit() || byte == b'_'
}

/// How many letters, digits and underscores a text begins with.
fn word_length(text: &[u8]) -> usize
    ensures count { result ≡ prefix_len is_in_word text.now }
    ensures within { result ≤ length text.now }
{
    text.iter().take_while(|byte| is_in_word(**byte)).count()
}

/// Whether a text begins with a letter.
fn begins_with_letter(text: &[u8]) -> bool
    ensures { result ≡ is_ascii_alphabetic (slice_index text.now 0) }
{
    !text.is_empty() && text[0].is_ascii_alphabetic()
}

/// Whether each byte of a text is a letter, a digit or an underscore.
fn is_word(text: &[u8]) -> bool
    ensures { result ≡ list_all is_in_word text.now }
{
    text.iter().all(|byte| is_in_word(*byte))
}

/// Whether a text is an identifier.
pub fn is_identifier(text: &[u8]) -> bool
    ensures { result ≡ is_identifier text.now }
{
    begins_with_letter(text) && is_word(text)
}

/// The text in lower case. Takes memory for its bytes.
pub fn lower(alloc: Global, text: &[u8]) -> Result<Text, AllocError>
    ensures { IfOk result (λ made. made ≡ lower text.now) }
{
    let bytes: Vec<u8> = text
        .iter()
        .map(|byte| byte.to_ascii_lowercase())
        .collect(alloc)?;
    Ok(Text::new(bytes))
}

/// The identifier that a name begins with.
fn word_of(text: &[u8]) -> &[u8]
    ensures { result.now ≡ word_of text.now }
{
    &text[..word_length(text)]
}

/// What follows the identifier that a name begins with.
fn behind_word(text: &[u8]) -> &[u8]
    ensures { result.now ≡ behind_word text.now }
{
    &text[word_length(text)..]
}

/// The digits of a bit: behind a space, or in parentheses.
#[tactic(auto, unfolding(crate::specs::Fields::bit_digits))]
fn bit_digits(rest: &[u8]) -> Option<&[u8]>
    ensures { option_copied result ≡ bit_digits rest.now }
{
    if rest.starts_with(b" ") {
        Some(&rest[1..])
    } else if 1 < rest.len() && (rest.starts_with(b"(") && rest.ends_with(b")")) {
        Some(&rest[1..rest.len() - 1])
    } else {
        None
    }
}

/// Whether what follows an identifier is nothing, or a bit whose number has at most 32 bits.
fn is_bit(rest: &[u8]) -> bool
    ensures { result ≡ is_bit_of (bit_digits rest.now) rest.now }
{
    match bit_digits(rest) {
        Some(digits) => is_digits(digits) && saturating_value(digits) < 1 << 32,
        None => rest.is_empty(),
    }
}

/// The number of a bit that follows an identifier, up to the greatest of 32 bits.
fn bit_of(rest: &[u8]) -> Option<u32>
    ensures { is_bit_of (bit_digits rest.now) rest.now ≡ true → result ≡ option_map value_of (bit_digits rest.now) }
{
    match bit_digits(rest) {
        Some(digits) => Some(u32::try_from(saturating_value(digits)).unwrap_or(u32::MAX)),
        None => None,
    }
}

/// Whether a text is a star.
fn is_star(text: &[u8]) -> bool
    ensures { result ≡ bytes_eq text.now (codes "*") }
{
    text == b"*".as_slice()
}

/// Whether a text is a name: a star, or an identifier, perhaps with a bit.
#[tactic(auto, unfolding(crate::specs::Fields::is_label))]
pub fn is_label(text: &[u8]) -> bool
    ensures { result ≡ is_label text.now }
{
    is_star(text) || (begins_with_letter(text) && is_bit(behind_word(text)))
}

/// The name that is meant: none by a star. Takes memory for its bytes.
#[tactic(auto, unfolding(crate::specs::Fields::label_of))]
pub fn label(alloc: Global, text: &[u8]) -> Result<Option<Name>, AllocError>
    requires { is_label text.now ≡ true }
    ensures { IfOk result (λ name. name ≡ label_of text.now) }
{
    if is_star(text) {
        return Ok(None);
    }
    let bit = bit_of(behind_word(text));
    let text = lower(alloc, word_of(text))?;
    Ok(Some(Name { text, bit }))
}

/// The bytes of the identifier of a name, where these are more than 64.
#[tactic(auto, unfolding(crate::specs::LineFaults::long_name))]
pub fn long_name(text: &[u8]) -> Option<u64>
    ensures { result ≡ long_name text.now }
{
    let length = word_length(text);
    if length > MOST_NAME_BYTES {
        Some(length as u64)
    } else {
        None
    }
}
