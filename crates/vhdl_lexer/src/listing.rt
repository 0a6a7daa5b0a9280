// The tokens of a whole text.
ghost use Rattle.std.specs.Prelude.{◌≡◌, None, IfOk, IfErr, OnOk};
ghost use Rattle.lexer_base.specs.Listing.{IsRefusal};
ghost use Rattle.lexer_base.specs.Whole.{IsWhole};
ghost use Rattle.vhdl_lexer.specs.Listing.{pieces, tokens_in, refusal_in};

use crate::piece::first_piece;
use lexer_base::Front;
use std::alloc::Global;
use vhdl_token::Tokens;
use vlsi_base::ReadError;

/// Reads a text from its first byte to its last.
#[tactic(auto, unfolding(crate::specs::Listing::refusal_in))]
fn whole_text(alloc: Global, bytes: &[u8]) -> Result<Front, ReadError>
    ensures read { IfOk result (λ front. IsWhole front (pieces bytes.now)) }
    ensures refused { IfErr result (λ e. IsRefusal e (refusal_in bytes.now)) }
{
    let mut front = Front::new(alloc);
    let mut at = 0;
    while at < bytes.len() {
        let piece = first_piece(alloc, &bytes[at..])?;
        at += piece.length();
        front.take(alloc, piece)?;
    }
    Ok(front)
}

/// The tokens of a text, each with its line, its pragmas, and the line on which its end stands. The words of identifiers and
/// pragmas are in lower case. Lines are counted from 1, and 4,294,967,295 stands for each line from there on.
///
/// A text is refused at the first place where no token, comment, space, tab, carriage return or line feed stands: `Input`
/// with `BadByte` and no names; `Limit` of `Ident` at an identifier of more than 64 bytes, and of `Number` at a number
/// over 4,294,967,295. Memory goes by the number of bytes, and so does time.
#[tactic(auto, unfolding(crate::specs::Listing::tokens_in, crate::specs::Listing::refusal_in))]
pub fn tokens(alloc: Global, bytes: &[u8]) -> Result<Tokens, ReadError>
    ensures accepted { OnOk result (refusal_in bytes.now ≡ None) }
    ensures read { IfOk result (λ read. read ≡ tokens_in bytes.now) }
    ensures refused { IfErr result (λ e. IsRefusal e (refusal_in bytes.now)) }
{
    let front = whole_text(alloc, bytes)?;
    Ok(front.into_tokens())
}
