// What was read of a text so far.
ghost use Rattle.std.specs.Prelude.{◌≡◌, ◌++◌, [], None, IfErr, OnOk};
ghost use Rattle.lexer_base.specs.Listing.{line_after, tokens_of, pragmas_of, refusal_of, IsRefusal};

use crate::piece::Piece;
use std::alloc::Global;
use vhdl_token::{PlacedToken, PlacedTokens, Tokens};
use vlsi_base::{FaultKind, InputFault, Limit, LimitKind, Names, Pragma, Pragmas, ReadError};

/// What was read of a text so far: its tokens and its pragmas.
#[derive(Drop)]
pub struct Front {
    pub items: PlacedTokens,
    pub pragmas: Pragmas,
    /// The line of the next byte.
    pub line: u32,
    /// The line of the last piece.
    pub last_line: u32,
}

impl Front {
    /// Before the first byte. Takes no memory.
    pub fn new(alloc: Global) -> Self
        ensures items { result.items ≡ [] }
        ensures pragmas { result.pragmas ≡ [] }
        ensures line { result.line ≡ 1 }
        ensures last_line { result.last_line ≡ 1 }
    {
        Front {
            items: PlacedTokens::new(Vec::new(alloc)),
            pragmas: Pragmas::new(Vec::new(alloc)),
            line: 1,
            last_line: 1,
        }
    }

    /// Takes the next piece, or says why the text is refused there. Takes memory for a token and for a pragma.
    pub fn take(&mut self, alloc: Global, piece: Piece) -> Result<(), ReadError>
        ensures items { OnOk result (self.new.items ≡ self.old.items ++ tokens_of self.old.line piece) }
        ensures pragmas { OnOk result (self.new.pragmas ≡ self.old.pragmas ++ pragmas_of self.old.line piece) }
        ensures line { OnOk result (self.new.line ≡ line_after self.old.line piece) }
        ensures last_line { OnOk result (self.new.last_line ≡ self.old.line) }
        ensures goes_on { OnOk result (refusal_of self.old.line piece ≡ None) }
        ensures refused { IfErr result (λ e. IsRefusal e (refusal_of self.old.line piece)) }
    {
        let line = self.line;
        self.last_line = line;
        match piece {
            Piece::Blank => Ok(()),
            Piece::Comment(_) => Ok(()),
            Piece::NewLine => {
                self.line = line.saturating_add(1);
                Ok(())
            }
            Piece::Pragma(key, name, _) => {
                self.pragmas.push(Pragma { key, name, line })?;
                Ok(())
            }
            Piece::Token(token, _) => {
                self.items.push(PlacedToken { token, line })?;
                Ok(())
            }
            Piece::TooLong(length) => Err(ReadError::Limit(Limit {
                which: LimitKind::Ident,
                reached: length as u64,
            })),
            Piece::TooGreat(number) => Err(ReadError::Limit(Limit {
                which: LimitKind::Number,
                reached: number,
            })),
            Piece::Bad => Err(ReadError::Input(InputFault {
                line,
                kind: FaultKind::BadByte,
                names: Names::new(Vec::new(alloc)),
            })),
        }
    }

    /// The tokens and pragmas of a text that was read to its end. Takes no memory.
    pub fn into_tokens(self) -> Tokens
        ensures items { result.items ≡ self.items }
        ensures pragmas { result.pragmas ≡ self.pragmas }
        ensures last_line { result.last_line ≡ self.last_line }
    {
        let Front {
            items,
            pragmas,
            line: _,
            last_line,
        } = self;
        Tokens {
            items,
            pragmas,
            last_line,
        }
    }
}
