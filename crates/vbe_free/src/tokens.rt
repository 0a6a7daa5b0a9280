// Free bits as operands.
ghost use Rattle.std.specs.Prelude.{◌≡◌, ◌++◌, ◌<◌, ◌&&◌, true, false, List, length, drop, IfOk, OnOk, if◌then◌else◌};
ghost use Rattle.vhdl_token.specs.declared.token.PlacedToken.{PlacedToken as PlacedTokenValue};
ghost use Rattle.vbe_free.specs.Tokens.{free_name, operand, is_free, begins_alternative, ends_alternative, begins_free, behind_free, begins_next, next_read, free_operands, with_operands, leaves};

use grammar_theory::Form;
use std::alloc::{AllocError, Global};
use vhdl_front::name_bytes;
use vhdl_token::{Keyword, PlacedToken, PlacedTokens, Sign, Token, Tokens};
use vlsi_base::Text;

/// The name that stands for a free bit: no identifier of a text has quotes.
pub const FREE_NAME: &str = "'d'";

/// How many tokens a free bit has.
const FREE_TOKENS: usize = 3;

// A token on this allocator.
fn copied(alloc: Global, token: &PlacedToken) -> Result<PlacedToken, AllocError>
    ensures { IfOk result (λ made. made ≡ token.now) }
{
    let copy = match &token.token {
        Token::Identifier(name) => Token::Identifier(name.copy(alloc)?),
        Token::Keyword(word) => Token::Keyword(*word),
        Token::Number(number) => Token::Number(*number),
        Token::Bit(bit) => Token::Bit(*bit),
        Token::Quoted(text) => Token::Quoted(text.copy(alloc)?),
        Token::BitString(radix, digits) => Token::BitString(*radix, digits.copy(alloc)?),
        Token::Digits(digits) => Token::Digits(digits.copy(alloc)?),
        Token::Sign(sign) => Token::Sign(*sign),
    };
    Ok(PlacedToken {
        token: copy,
        line: token.line,
    })
}

fn operand(alloc: Global, line: u32) -> Result<PlacedToken, AllocError>
    ensures { IfOk result (λ made. made ≡ operand line) }
{
    let name = Text::from_bytes(alloc, FREE_NAME.as_bytes())?;
    Ok(PlacedToken {
        token: Token::Identifier(name),
        line,
    })
}

fn is_free(first: &PlacedToken, second: &PlacedToken, third: &PlacedToken) -> bool
    ensures { result ≡ is_free first.now second.now third.now }
{
    Form::Sign(Sign::Tick).fits(first)
        && Form::Identifier.fits(second)
        && name_bytes(second) == b"d".as_slice()
        && Form::Sign(Sign::Tick).fits(third)
}

fn begins_alternative(token: &PlacedToken) -> bool
    ensures { result ≡ begins_alternative token.now }
{
    Form::Sign(Sign::Assign).fits(token)
        || Form::Keyword(Keyword::Guarded).fits(token)
        || Form::Keyword(Keyword::Else).fits(token)
}

fn ends_alternative(token: &PlacedToken) -> bool
    ensures { result ≡ ends_alternative token.now }
{
    Form::Sign(Sign::Semicolon).fits(token)
        || Form::Keyword(Keyword::When).fits(token)
        || Form::Keyword(Keyword::After).fits(token)
}

// What stands in place of the tokens behind a free bit, before they are read on: nothing, or a second operand on the line of the first of
// them, which is wrong there.
fn push_behind(
    alloc: Global,
    made: &mut Vec<PlacedToken>,
    rest: &[PlacedToken],
) -> Result<(), AllocError>
    ensures { OnOk result ((read : List PlacedTokenValue) → made.new.items ++ read ≡ made.old.items ++ behind_free rest.now read) }
{
    if let Some(next) = rest.first() {
        if !ends_alternative(next) {
            made.push(operand(alloc, next.line)?)?;
        }
    }
    Ok(())
}

// Whether the tokens begin with a free bit.
fn at_free(rest: &[PlacedToken]) -> bool
    ensures { result ≡ begins_free rest.now }
{
    rest.len() >= FREE_TOKENS && is_free(&rest[0], &rest[1], &rest[2])
}

// Whether a free bit that is a whole alternative is next.
fn takes_free(begins: bool, rest: &[PlacedToken]) -> bool
    ensures { result ≡ (begins && begins_free rest.now) }
{
    begins && at_free(rest)
}

// Puts what stands in place of the next tokens behind the others.
fn push_next(
    alloc: Global,
    made: &mut Vec<PlacedToken>,
    rest: &[PlacedToken],
    is_free: bool,
) -> Result<(), AllocError>
    requires some { 0 < length rest.now }
    requires free { is_free ≡ true → begins_free rest.now ≡ true }
    ensures { OnOk result ((read : List PlacedTokenValue) → made.new.items ++ read ≡ made.old.items ++ next_read is_free rest.now read) }
{
    let first = &rest[0];
    if is_free {
        made.push(operand(alloc, first.line)?)?;
        push_behind(alloc, made, &rest[FREE_TOKENS..])
    } else {
        made.push(copied(alloc, first)?)?;
        Ok(())
    }
}

// What stands behind the next tokens.
fn behind_next(rest: &[PlacedToken], is_free: bool) -> &[PlacedToken]
    requires some { 0 < length rest.now }
    requires free { is_free ≡ true → begins_free rest.now ≡ true }
    ensures { result.now ≡ drop (if is_free then 3 else 1) rest.now }
{
    if is_free {
        &rest[FREE_TOKENS..]
    } else {
        &rest[1..]
    }
}

// Whether an alternative begins behind the next tokens.
fn begins_behind(rest: &[PlacedToken], is_free: bool) -> bool
    requires { 0 < length rest.now }
    ensures { result ≡ begins_next is_free rest.now }
{
    if is_free {
        false
    } else {
        begins_alternative(&rest[0])
    }
}

fn operands_in(alloc: Global, tokens: &[PlacedToken]) -> Result<Vec<PlacedToken>, AllocError>
    ensures { IfOk result (λ made. made.items ≡ free_operands false tokens.now) }
{
    let mut made = Vec::new(alloc);
    let mut rest = tokens;
    let mut begins = false;
    while !rest.is_empty() {
        let is_free = takes_free(begins, rest);
        push_next(alloc, &mut made, rest, is_free)?;
        begins = begins_behind(rest, is_free);
        rest = behind_next(rest, is_free);
    }
    Ok(made)
}

/// The tokens with each free bit that is a whole alternative as one operand. Takes memory for them.
pub fn with_operands(alloc: Global, tokens: Tokens) -> Result<Tokens, AllocError>
    ensures { IfOk result (λ made. made ≡ with_operands tokens) }
{
    let items = operands_in(alloc, tokens.items.as_slice())?;
    Ok(Tokens {
        items: PlacedTokens::new(items),
        pragmas: tokens.pragmas,
        last_line: tokens.last_line,
    })
}

/// Whether something is left free: some `'d'` stands where an alternative begins.
pub fn leaves(tokens: &[PlacedToken]) -> bool
    ensures { result ≡ leaves false tokens.now }
{
    let mut rest = tokens;
    let mut begins = false;
    while !rest.is_empty() {
        if takes_free(begins, rest) {
            return true;
        }
        begins = begins_alternative(&rest[0]);
        rest = &rest[1..];
    }
    false
}
