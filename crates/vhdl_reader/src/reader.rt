// The reader of tokens, as programs call it.
ghost use Rattle.std.specs.Prelude.{◌≡◌, ◌≢◌, ◌+◌, ◌-◌, ◌<◌, IsOk, IsNone, IsSome, IfSome, IfOk, OnOk, OnErr, Some, None, Err, length, option_copied};
ghost use Rattle.std.specs.Option.{option_map};
ghost use Rattle.vlsi_base.specs.Tree.{view};
ghost use Rattle.vlsi_base.specs.declared.fault.ReadError.TheVariants.{Memory};
ghost use Rattle.grammar_theory.specs.Outcome.{start};
ghost use Rattle.vhdl_front.specs.Cursor.{at_first, rest_of};
ghost use Rattle.vhdl_front.specs.Expression.{expression as expression_grammar};
ghost use Rattle.vhdl_front.specs.Entity.{entity as entity_grammar, declarations as declarations_grammar};
ghost use Rattle.vhdl_front.specs.Front.{line_at, Becomes};
ghost use Rattle.vhdl_reader.specs.Front.{Keeps, Again, IsRead, next_token, too_deep};
ghost use Rattle.vhdl_reader.specs.Place.{behind_read, behind_token, IsAccepted};

use crate::copies::{copy_fault, repeat};
use crate::done::{Kind, Step, read_again};
use grammar_theory::{DEPTH, Stop};
use std::alloc::{AllocError, Global};
use std::marker::Model;
use vhdl_front::{Cursor, stop_error};
use vhdl_token::{PlacedToken, Token, Tokens};
use vlsi_base::{Declarations, Entity, Limit, LimitKind, ParsedExpr, Pragmas, ReadError};

/// Passes over the next token, of which there must be one, with the cursor that is kept, if there is one.
fn skip_kept(cursor: &mut Option<Cursor>)
    requires { IfSome cursor.old (λ c. 0 < length c.rest) }
    ensures { cursor.new ≡ option_map behind_token cursor.old }
{
    if let Some(cursor) = cursor {
        cursor.skip();
    }
}

/// Reads entities, declarations of signals and expressions from tokens, as IEEE 1076 has them but for what
/// `docs/FORMATS.md` says. After a refusal it answers the same refusal again, unless memory runs out for it. A call that answers
/// `Memory` leaves the reader as it was, so that the same call can be tried again: the first that is tried then reads the text so
/// far once more. Memory goes by what is read.
#[derive(Drop)]
pub struct TokenReader<'a> {
    alloc: Global,
    tokens: &'a [PlacedToken],
    done: Vec<Step>,
    rest: &'a [PlacedToken],
    // none once a read was broken off, since what it had counted can't be taken back
    cursor: Option<Cursor<'a>>,
    pragmas: &'a Pragmas,
    last_line: u32,
    room: u32,
    refused: Option<ReadError>,
}

impl<'a> Model for TokenReader<'a> {
    ghost use Rattle.std.specs.Prelude.{◌≢◌, Some};
    ghost use Rattle.vlsi_base.specs.declared.fault.ReadError.TheVariants.{Memory};
    ghost use Rattle.vhdl_reader.specs.Front.{Front};
    ghost use Rattle.vhdl_reader.specs.Place.{stands, IsStanding};

    ghost Value = { Front };

    ghost view = { λ r. record { here = stands r.tokens.now r.done.items r.rest.now; room = r.room; last_line = r.last_line; pragmas = r.pragmas.now; refused = r.refused } };

    ghost invariant = { λ r. IsStanding r.tokens.now r.done.items r.rest.now r.cursor × (r.refused ≢ Some Memory) };
}

impl<'a> TokenReader<'a> {
    /// At the first token. Takes no memory.
    pub fn begin(alloc: Global, tokens: &'a Tokens) -> TokenReader<'a>
        ensures { result ≡ record { here = start tokens.now.items; room = DEPTH; last_line = tokens.now.last_line; pragmas = tokens.now.pragmas; refused = None } }
    {
        TokenReader {
            alloc,
            tokens: tokens.items.as_slice(),
            done: Vec::new(alloc),
            rest: tokens.items.as_slice(),
            cursor: Some(Cursor::new(alloc, tokens.items.as_slice())),
            pragmas: &tokens.pragmas,
            last_line: tokens.last_line,
            room: DEPTH,
            refused: None,
        }
    }

    /// A cursor that stands here, of which the reader keeps none.
    fn cursor_here(&mut self) -> Result<Cursor<'a>, AllocError>
        ensures here { IfOk result (λ c. c ≡ self.old.here) }
        ensures same { self.new ≡ self.old }
    {
        if let Some(cursor) = self.cursor.take() {
            return Ok(cursor);
        }
        read_again(
            self.alloc,
            self.tokens,
            self.done.as_slice(),
            self.rest.len(),
        )
    }

    /// Goes on from where a cursor has read this to.
    fn go_on(&mut self, kind: Kind, cursor: Cursor<'a>) -> Result<(), AllocError>
        requires read { cursor ≡ behind_read kind self.old.room self.old.here }
        requires accepted { IsAccepted kind self.old.room self.old.here }
        ensures ok { OnOk result (self.new ≡ record self.old { here = cursor.entry }) }
        ensures err { OnErr result (self.new ≡ self.old) }
    {
        let step = Step {
            kind,
            room: self.room,
            left: self.rest.len(),
        };
        self.done.push(step)?;
        self.rest = cursor.rest();
        self.cursor = Some(cursor);
        Ok(())
    }

    /// What a stop is answered by, which is kept from now on, unless memory runs out for its copy.
    fn stop(&mut self, stop: Stop) -> ReadError
        ensures answer { Becomes self.old.last_line self.old.here.rest stop result }
        ensures kept { Keeps self.old result self.new }
    {
        match stop_error(self.alloc, self.last_line, self.rest, stop) {
            ReadError::Memory => ReadError::Memory,
            ReadError::Limit(limit) => {
                self.refused = Some(ReadError::Limit(limit));
                ReadError::Limit(limit)
            }
            ReadError::Input(fault) => match copy_fault(self.alloc, &fault) {
                Ok(answer) => {
                    self.refused = Some(ReadError::Input(fault));
                    ReadError::Input(answer)
                }
                Err(_) => ReadError::Memory,
            },
        }
    }

    /// Reads the longest expression at the front. Its operators are counted anew; whether its names are declared isn't
    /// looked at. Refused by `Syntax`, and by `Limit` of `Depth` or `Chain`.
    pub fn expression(&mut self) -> Result<ParsedExpr, ReadError>
        ensures right { IsNone self.old.refused → IsRead view (expression_grammar self.old.room) (at_first self.old.here) self.old result self.new }
        ensures again { IfSome self.old.refused (λ k. Again k result) }
        ensures forever { IsSome self.old.refused → self.new ≡ self.old }
    {
        if let Some(error) = &self.refused {
            return Err(repeat(self.alloc, error));
        }
        let room = self.room;
        let Ok(mut cursor) = self.cursor_here() else {
            return Err(ReadError::Memory);
        };
        cursor.restart();
        match cursor.expression(room) {
            Ok(parsed) => match self.go_on(Kind::Expression, cursor) {
                Ok(()) => Ok(parsed),
                Err(_) => Err(ReadError::Memory),
            },
            Err(stop) => Err(self.stop(stop)),
        }
    }

    /// Reads an entity. Refused by `Syntax` and `Twice`, and by `Limit` of `Depth` or `Bits`.
    pub fn entity(&mut self) -> Result<Entity, ReadError>
        ensures right { IsNone self.old.refused → IsRead (λ e. e) (entity_grammar self.old.room) self.old.here self.old result self.new }
        ensures again { IfSome self.old.refused (λ k. Again k result) }
        ensures forever { IsSome self.old.refused → self.new ≡ self.old }
    {
        if let Some(error) = &self.refused {
            return Err(repeat(self.alloc, error));
        }
        let room = self.room;
        let Ok(mut cursor) = self.cursor_here() else {
            return Err(ReadError::Memory);
        };
        match cursor.entity(room) {
            Ok(entity) => match self.go_on(Kind::Entity, cursor) {
                Ok(()) => Ok(entity),
                Err(_) => Err(ReadError::Memory),
            },
            Err(stop) => Err(self.stop(stop)),
        }
    }

    /// Reads declarations of signals, as long as there are any. Refused by `Syntax` and `Twice`, and by `Limit` of `Depth`
    /// or `Bits`.
    pub fn declarations(&mut self) -> Result<Declarations, ReadError>
        ensures right { IsNone self.old.refused → IsRead (λ d. d) (declarations_grammar self.old.room) self.old.here self.old result self.new }
        ensures again { IfSome self.old.refused (λ k. Again k result) }
        ensures forever { IsSome self.old.refused → self.new ≡ self.old }
    {
        if let Some(error) = &self.refused {
            return Err(repeat(self.alloc, error));
        }
        let room = self.room;
        let Ok(mut cursor) = self.cursor_here() else {
            return Err(ReadError::Memory);
        };
        match cursor.declarations(room) {
            Ok(declarations) => match self.go_on(Kind::Declarations, cursor) {
                Ok(()) => Ok(declarations),
                Err(_) => Err(ReadError::Memory),
            },
            Err(stop) => Err(self.stop(stop)),
        }
    }

    /// The pragmas of the text, in file order. Takes no memory.
    pub fn pragmas(&self) -> &'a Pragmas
        ensures { result.now ≡ self.now.pragmas }
    {
        self.pragmas
    }

    /// The next token; `None` exactly at the end and after a refusal. Takes no memory.
    pub fn peek(&self) -> Option<&'a Token>
        ensures { option_copied result ≡ next_token self.now.here.rest self.now.refused }
    {
        if self.refused.is_some() {
            return None;
        }
        match self.rest.first() {
            Some(next) => Some(&next.token),
            None => None,
        }
    }

    /// The line of the next token; the end stands on the last line. Takes no memory.
    pub fn line(&self) -> u32
        ensures { result ≡ line_at self.now.last_line self.now.here.rest }
    {
        match self.rest.first() {
            Some(next) => next.line,
            None => self.last_line,
        }
    }

    /// Takes the next token, of which there must be one. Takes no memory.
    pub fn skip(&mut self)
        requires { 0 < length self.old.here.rest }
        ensures { self.new ≡ record self.old { here = record { state = self.old.here.state; rest = rest_of self.old.here.rest } } }
    {
        self.rest = &self.rest[1..];
        skip_kept(&mut self.cursor);
    }

    /// Counts an if or a case into the depth. Refused by `Limit` of `Depth`, with 257 reached, where 256 parentheses, ifs and
    /// cases are open. Takes no memory, but for a refusal that is repeated.
    pub fn enter(&mut self) -> Result<(), ReadError>
        ensures fits { IsNone self.old.refused → 0 < self.old.room → IsOk result × (self.new ≡ record self.old { room = self.old.room - 1 }) }
        ensures deep { IsNone self.old.refused → self.old.room ≡ 0 → (result ≡ Err too_deep) × (self.new ≡ record self.old { refused = Some too_deep }) }
        ensures again { IfSome self.old.refused (λ k. Again k result) }
        ensures forever { IsSome self.old.refused → self.new ≡ self.old }
    {
        if let Some(error) = &self.refused {
            return Err(repeat(self.alloc, error));
        }
        if self.room == 0 {
            let limit = Limit {
                which: LimitKind::Depth,
                reached: u64::from(DEPTH) + 1,
            };
            self.refused = Some(ReadError::Limit(limit));
            return Err(ReadError::Limit(limit));
        }
        self.room -= 1;
        Ok(())
    }

    /// Ends the innermost if or case, of which there must be one. Takes no memory.
    pub fn leave(&mut self)
        requires { self.old.room < DEPTH }
        ensures { self.new ≡ record self.old { room = self.old.room + 1 } }
    {
        self.room += 1;
    }

    /// From now on this is answered; it isn't out of memory, and nothing was refused before. Takes no memory.
    pub fn refuse(&mut self, error: ReadError)
        requires refusal { error ≢ Memory }
        requires first { IsNone self.old.refused }
        ensures { self.new ≡ record self.old { refused = Some error } }
    {
        self.refused = Some(error);
    }
}
