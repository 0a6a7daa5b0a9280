// Pragmas: comments of three words, the first of which is `pragma`.
ghost use Rattle.std.specs.Prelude.{◌≡◌, IfOk, codes, map};
ghost use Rattle.std.specs.Str.{bytes_eq};
ghost use Rattle.std.specs.Char.{to_ascii_lowercase};
ghost use Rattle.std.specs.List.{list_all};
ghost use Rattle.lexer_base.specs.Bytes.{is_in_word};
ghost use Rattle.vhdl_lexer.specs.Words.{is_spelled_as_identifier, identifier_of, both, first_word, after_word, without_return, pragma_of};

use crate::blanks::{blanks, unblanked};
use lexer_base::{MOST_IDENTIFIER_BYTES, is_in_word, lower};
use std::alloc::{AllocError, Global};
use vhdl_token::Keyword;
use vlsi_base::Text;

fn all_in_word(word: &[u8]) -> bool
    ensures { result ≡ list_all is_in_word word.now }
{
    word.iter().all(|byte| is_in_word(*byte))
}

/// Whether the bytes are a letter, then letters, digits and underscores, at most 64 together.
fn is_spelled_as_identifier(word: &[u8]) -> bool
    ensures { result ≡ is_spelled_as_identifier word.now }
{
    if word.is_empty() || !word[0].is_ascii_alphabetic() || word.len() > MOST_IDENTIFIER_BYTES {
        return false;
    }
    all_in_word(word)
}

/// The identifier that the bytes are, in lower case, unless they are a reserved word.
fn identifier(alloc: Global, word: &[u8]) -> Result<Option<Text>, AllocError>
    ensures { IfOk result (λ found. found ≡ identifier_of word.now) }
{
    if !is_spelled_as_identifier(word) {
        return Ok(None);
    }
    let text = lower(alloc, word)?;
    match Keyword::from_word(text.as_bytes()) {
        Some(_) => Ok(None),
        None => Ok(Some(text)),
    }
}

/// Whether the bytes are the word `pragma`, in any case.
fn is_pragma(alloc: Global, word: &[u8]) -> Result<bool, AllocError>
    ensures { IfOk result (λ yes. yes ≡ bytes_eq (map to_ascii_lowercase word.now) (codes "pragma")) }
{
    if word.len() != 6 {
        return Ok(false);
    }
    let text = lower(alloc, word)?;
    Ok(text.as_bytes() == b"pragma".as_slice())
}

/// The word at the front of a text, behind blanks, and what follows it.
fn split_word(text: &[u8]) -> (&[u8], &[u8])
    ensures word { result.0.now ≡ first_word text.now }
    ensures rest { result.1.now ≡ after_word text.now }
{
    let text = &text[blanks(text)..];
    let length = unblanked(text);
    text.split_at(length)
}

/// The comment without a carriage return at its end.
fn without_return(comment: &[u8]) -> &[u8]
    ensures { result.now ≡ without_return comment.now }
{
    if !comment.is_empty() && comment[comment.len() - 1] == b'\r' {
        &comment[..comment.len() - 1]
    } else {
        comment
    }
}

/// The two words as identifiers, if both are.
fn key_and_name(alloc: Global, key: &[u8], name: &[u8]) -> Result<Option<(Text, Text)>, AllocError>
    ensures { IfOk result (λ found. found ≡ both (identifier_of key.now) (identifier_of name.now)) }
{
    let Some(key) = identifier(alloc, key)? else {
        return Ok(None);
    };
    match identifier(alloc, name)? {
        Some(name) => Ok(Some((key, name))),
        None => Ok(None),
    }
}

/// The key and the name of a pragma. The comment is what stands behind its two dashes, to the end of the line.
#[tactic(auto, unfolding(crate::specs::Words::pragma_of))]
pub fn pragma(alloc: Global, comment: &[u8]) -> Result<Option<(Text, Text)>, AllocError>
    ensures { IfOk result (λ found. found ≡ pragma_of comment.now) }
{
    let (first, rest) = split_word(without_return(comment));
    let (key, rest) = split_word(rest);
    let (name, rest) = split_word(rest);
    let (behind, _) = split_word(rest);
    if is_pragma(alloc, first)? && behind.is_empty() {
        key_and_name(alloc, key, name)
    } else {
        Ok(None)
    }
}
