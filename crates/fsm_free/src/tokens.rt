// Free bits as operands.
ghost use Rattle.std.specs.Prelude.{◌≡◌, ◌++◌, ◌<◌, ◌&&◌, true, false, List, length, drop, IfOk, OnOk, if◌then◌else◌};
ghost use Rattle.vhdl_token.specs.declared.token.PlacedToken.{PlacedToken as PlacedTokenValue};
ghost use Rattle.free_tokens.specs.Tokens.{begins_free};
ghost use Rattle.fsm_free.specs.Tokens.{place_after, begins_value, behind_free, free_operands, has_free, with_operands};
ghost use Rattle.fsm_free.specs.Pieces.{next_read, begins_next, place_next};

use free_tokens::{FREE_TOKENS, at_free, copied, operand};
use grammar_theory::Form;
use std::alloc::{AllocError, Global};
use vhdl_token::{Keyword, PlacedToken, PlacedTokens, Sign, Tokens};

/// Where a token stands: before the first word `process`, between the first and the second, or behind the second.
#[derive(Clone, Copy)]
pub enum Place {
    Before,
    Within,
    Behind,
}

fn place_after(here: Place, token: &PlacedToken) -> Place
    ensures { result ≡ place_after here token.now }
{
    if Form::Keyword(Keyword::Process).fits(token) {
        match here {
            Place::Before => Place::Within,
            Place::Within => Place::Behind,
            Place::Behind => Place::Behind,
        }
    } else {
        here
    }
}

fn begins_value(here: Place, token: &PlacedToken) -> bool
    ensures { result ≡ begins_value here token.now }
{
    match here {
        Place::Within => Form::Sign(Sign::Assign).fits(token),
        Place::Before => false,
        Place::Behind => false,
    }
}

// What stands in place of the tokens behind a free bit, before they are read on: nothing, or a second operand on the line of the first of
// them, which is wrong there.
fn push_behind(
    alloc: Global,
    made: &mut Vec<PlacedToken>,
    rest: &[PlacedToken],
) -> Result<(), AllocError>
    ensures { OnOk result ((read : List PlacedTokenValue) → made.new.items ++ read ≡ made.old.items ++ behind_free rest.now read) }
{
    if let Some(next) = rest.first() {
        if !Form::Sign(Sign::Semicolon).fits(next) {
            made.push(operand(alloc, next.line)?)?;
        }
    }
    Ok(())
}

// Puts what stands in place of the next tokens behind the others.
fn push_next(
    alloc: Global,
    made: &mut Vec<PlacedToken>,
    rest: &[PlacedToken],
    is_free: bool,
) -> Result<(), AllocError>
    requires some { 0 < length rest.now }
    requires free { is_free ≡ true → begins_free rest.now ≡ true }
    ensures { OnOk result ((read : List PlacedTokenValue) → made.new.items ++ read ≡ made.old.items ++ next_read is_free rest.now read) }
{
    let first = &rest[0];
    if is_free {
        made.push(operand(alloc, first.line)?)?;
        push_behind(alloc, made, &rest[FREE_TOKENS..])
    } else {
        made.push(copied(alloc, first)?)?;
        Ok(())
    }
}

// What stands behind the next tokens.
fn behind_next(rest: &[PlacedToken], is_free: bool) -> &[PlacedToken]
    requires some { 0 < length rest.now }
    requires free { is_free ≡ true → begins_free rest.now ≡ true }
    ensures { result.now ≡ drop (if is_free then 3 else 1) rest.now }
{
    if is_free {
        &rest[FREE_TOKENS..]
    } else {
        &rest[1..]
    }
}

// Whether a value begins behind the next tokens.
fn begins_behind(here: Place, rest: &[PlacedToken], is_free: bool) -> bool
    requires { 0 < length rest.now }
    ensures { result ≡ begins_next here is_free rest.now }
{
    if is_free {
        false
    } else {
        begins_value(here, &rest[0])
    }
}

// Where what is behind the next tokens stands.
fn place_behind(here: Place, rest: &[PlacedToken], is_free: bool) -> Place
    requires { 0 < length rest.now }
    ensures { result ≡ place_next here is_free rest.now }
{
    if is_free {
        here
    } else {
        place_after(here, &rest[0])
    }
}

// Whether a free bit is next.
fn takes_free(begins: bool, rest: &[PlacedToken]) -> bool
    ensures { result ≡ (begins && begins_free rest.now) }
{
    begins && at_free(rest)
}

fn operands_in(alloc: Global, tokens: &[PlacedToken]) -> Result<Vec<PlacedToken>, AllocError>
    ensures { IfOk result (λ made. made.items ≡ free_operands false Place.Before tokens.now) }
{
    let mut made = Vec::new(alloc);
    let mut rest = tokens;
    let mut begins = false;
    let mut here = Place::Before;
    while !rest.is_empty() {
        let is_free = takes_free(begins, rest);
        push_next(alloc, &mut made, rest, is_free)?;
        begins = begins_behind(here, rest, is_free);
        here = place_behind(here, rest, is_free);
        rest = behind_next(rest, is_free);
    }
    Ok(made)
}

/// Whether a value of some statement begins with a free bit. Takes no memory.
pub fn has_free(tokens: &[PlacedToken]) -> bool
    ensures { result ≡ has_free false Place.Before tokens.now }
{
    let mut rest = tokens;
    let mut begins = false;
    let mut here = Place::Before;
    while !rest.is_empty() {
        if takes_free(begins, rest) {
            return true;
        }
        begins = begins_behind(here, rest, false);
        here = place_behind(here, rest, false);
        rest = behind_next(rest, false);
    }
    false
}

/// The tokens with each free bit that is a whole value as one operand. Takes memory for them.
pub fn with_operands(alloc: Global, tokens: Tokens) -> Result<Tokens, AllocError>
    ensures { IfOk result (λ made. made ≡ with_operands tokens) }
{
    let items = operands_in(alloc, tokens.items.as_slice())?;
    Ok(Tokens {
        items: PlacedTokens::new(items),
        pragmas: tokens.pragmas,
        last_line: tokens.last_line,
    })
}
