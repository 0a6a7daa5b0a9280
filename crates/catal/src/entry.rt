// What one line says.
ghost use Rattle.std.specs.Prelude.{◌≡◌, ◌≤◌, ℕ, List, length, true, IsTrue, ◌↔◌, IfOk, IfSome, IsNone, codes};
ghost use Rattle.std.specs.List.{list_all, prefix_len};
ghost use Rattle.std.specs.Char.{is_ascii_uppercase};
ghost use Rattle.lexer_base.specs.Bytes.{is_blank, is_in_word};
ghost use Rattle.catal.specs.Line.{is_identifier, is_run, IsSpelled, IsEntry};
ghost use Rattle.catal.specs.Read.{IsRead};

use lexer_base::{is_blank, is_in_word, lower, word_length};
use std::alloc::{AllocError, Global};
use vhdl_token::Keyword;
use vlsi_base::Text;

// A name and a word, as a line spells them.
#[derive(Clone, Copy)]
struct Spelled<'a> {
    name: &'a [u8],
    word: &'a [u8],
}

/// A cell, and whether its word is `C`.
#[derive(Drop)]
pub struct Entry {
    /// In lower case.
    pub name: Text,
    pub used: bool,
}

// How many spaces and tabs a text begins with.
fn blanks(text: &[u8]) -> usize
    ensures count { result ≡ prefix_len is_blank text.now }
    ensures within { result ≤ length text.now }
{
    text.iter().take_while(|byte| is_blank(**byte)).count()
}

fn all_in_word(text: &[u8]) -> bool
    ensures { result ≡ list_all is_in_word text.now }
{
    text.iter().all(|byte| is_in_word(*byte))
}

// Whether these are a letter, then letters, digits and underscores.
fn is_identifier(text: &[u8]) -> bool
    ensures { result ≡ is_identifier text.now }
{
    if text.is_empty() || !text[0].is_ascii_alphabetic() {
        return false;
    }
    all_in_word(text)
}

fn all_capital(text: &[u8]) -> bool
    ensures { result ≡ list_all is_ascii_uppercase text.now }
{
    text.iter().all(|byte| byte.is_ascii_uppercase())
}

// The word of a line is one or more capital letters.
fn is_word(text: &[u8]) -> bool
    ensures { result ≡ is_run is_ascii_uppercase text.now }
{
    !text.is_empty() && all_capital(text)
}

// The name and the word of a line.
fn split_line(line: &[u8]) -> Option<Spelled<'_>>
    ensures some { IfSome result (λ s. IsSpelled line.now s.name.now s.word.now) }
    ensures none { IsNone result → (name word : List ℕ) → IsSpelled line.now name word → ⊥ }
{
    let (name, rest) = line.split_at(word_length(line));
    let (gap, word) = rest.split_at(blanks(rest));
    if is_identifier(name) && !gap.is_empty() && is_word(word) {
        Some(Spelled { name, word })
    } else {
        None
    }
}

/// What a line says, if it gives a word to a cell.
pub fn read_line(alloc: Global, line: &[u8]) -> Result<Option<Entry>, AllocError>
    ensures some { IfOk result (λ o. IfSome o (λ e. IsRead line.now e)) }
    ensures none { IfOk result (λ o. IsNone o → (name word : List ℕ) → IsEntry line.now name word → ⊥) }
{
    let Some(parts) = split_line(line) else {
        return Ok(None);
    };
    let name = lower(alloc, parts.name)?;
    if Keyword::from_word(name.as_bytes()).is_some() {
        return Ok(None);
    }
    let used = parts.word == b"C".as_slice();
    Ok(Some(Entry { name, used }))
}
