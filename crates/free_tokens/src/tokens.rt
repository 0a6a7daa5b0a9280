// Free bits in tokens.
ghost use Rattle.std.specs.Prelude.{◌≡◌, IfOk};
ghost use Rattle.free_tokens.specs.Tokens.{operand, is_free, begins_free};

use grammar_theory::Form;
use std::alloc::{AllocError, Global};
use vhdl_front::name_bytes;
use vhdl_token::{PlacedToken, Sign, Token};
use vlsi_base::Text;

/// The name that stands for a free bit: no identifier of a text has quotes.
pub const FREE_NAME: &str = "'d'";

/// How many tokens a free bit has.
pub const FREE_TOKENS: usize = 3;

/// The same token on this allocator.
pub fn copied(alloc: Global, token: &PlacedToken) -> Result<PlacedToken, AllocError>
    ensures { IfOk result (λ made. made ≡ token.now) }
{
    let copy = match &token.token {
        Token::Identifier(name) => Token::Identifier(name.copy(alloc)?),
        Token::Keyword(word) => Token::Keyword(*word),
        Token::Number(number) => Token::Number(*number),
        Token::Bit(bit) => Token::Bit(*bit),
        Token::Quoted(text) => Token::Quoted(text.copy(alloc)?),
        Token::BitString(radix, digits) => Token::BitString(*radix, digits.copy(alloc)?),
        Token::Digits(digits) => Token::Digits(digits.copy(alloc)?),
        Token::Sign(sign) => Token::Sign(*sign),
    };
    Ok(PlacedToken {
        token: copy,
        line: token.line,
    })
}

/// A free bit as one operand on this line.
pub fn operand(alloc: Global, line: u32) -> Result<PlacedToken, AllocError>
    ensures { IfOk result (λ made. made ≡ operand line) }
{
    let name = Text::from_bytes(alloc, FREE_NAME.as_bytes())?;
    Ok(PlacedToken {
        token: Token::Identifier(name),
        line,
    })
}

fn is_free(first: &PlacedToken, second: &PlacedToken, third: &PlacedToken) -> bool
    ensures { result ≡ is_free first.now second.now third.now }
{
    Form::Sign(Sign::Tick).fits(first)
        && Form::Identifier.fits(second)
        && name_bytes(second) == b"d".as_slice()
        && Form::Sign(Sign::Tick).fits(third)
}

/// Whether the tokens begin with a free bit. Takes no memory.
pub fn at_free(tokens: &[PlacedToken]) -> bool
    ensures { result ≡ begins_free tokens.now }
{
    tokens.len() >= FREE_TOKENS && is_free(&tokens[0], &tokens[1], &tokens[2])
}
