// Words that mean something by their place.
ghost use Rattle.std.specs.Prelude.{◌≡◌};
ghost use Rattle.std.specs.List.{list_all};
ghost use Rattle.grammar_theory.specs.Outcome.{Gives};
ghost use Rattle.pat_text.specs.Spelled.{text_of, direction_named, format_named, unit_named, is_digit};
ghost use Rattle.pat_text.specs.Reading.{any_word_at, direction_at, named_format_at, time_unit_at, digits_at};

use grammar_theory::{Form, Reason, Stop};
use pat_meaning::TimeUnit;
use vhdl_front::Cursor;
use vhdl_token::{Keyword, PlacedToken, Token};
use vlsi_base::Radix;

/// The text of a word or of digits; of another token none.
pub fn text_of(token: &PlacedToken) -> &[u8]
    ensures { result.now ≡ text_of token.now }
{
    match &token.token {
        Token::Identifier(name) => name.as_bytes(),
        Token::Keyword(word) => word.as_str().as_bytes(),
        Token::Digits(digits) => digits.as_bytes(),
        _ => &[],
    }
}

/// Whether a range falls, by its word.
fn direction_named(text: &[u8]) -> Option<bool>
    ensures { result ≡ direction_named text.now }
{
    if text == b"downto".as_slice() {
        Some(true)
    } else if text == b"to".as_slice() {
        Some(false)
    } else {
        None
    }
}

fn format_named(text: &[u8]) -> Option<Radix>
    ensures { result ≡ format_named text.now }
{
    if text == b"b".as_slice() {
        Some(Radix::Binary)
    } else if text == b"o".as_slice() {
        Some(Radix::Octal)
    } else if text == b"x".as_slice() {
        Some(Radix::Hexadecimal)
    } else {
        None
    }
}

fn unit_named(text: &[u8]) -> Option<TimeUnit>
    ensures { result ≡ unit_named text.now }
{
    if text == b"fs".as_slice() {
        Some(TimeUnit::Femtosecond)
    } else if text == b"ps".as_slice() {
        Some(TimeUnit::Picosecond)
    } else if text == b"ns".as_slice() {
        Some(TimeUnit::Nanosecond)
    } else if text == b"us".as_slice() {
        Some(TimeUnit::Microsecond)
    } else if text == b"ms".as_slice() {
        Some(TimeUnit::Millisecond)
    } else {
        None
    }
}

fn is_digit(format: Radix, c: u8) -> bool
    ensures { result ≡ is_digit format c }
{
    match format {
        Radix::Binary => c == b'0' || c == b'1',
        Radix::Octal => (b'0'..=b'7').contains(&c),
        Radix::Hexadecimal => c.is_ascii_digit() || (b'a'..=b'f').contains(&c),
    }
}

fn are_digits(format: Radix, text: &[u8]) -> bool
    ensures { result ≡ list_all (is_digit format) text.now }
{
    text.iter().all(|c| is_digit(format, *c))
}

/// A word.
#[tactic(auto, unfolding(crate::specs::Reading::any_word_at))]
pub fn any_word<'a>(cursor: &mut Cursor<'a>) -> Result<&'a PlacedToken, Stop>
    ensures { Gives (λ t. t.now) result cursor.new (any_word_at cursor.old) }
{
    if cursor.at(Form::Keyword(Keyword::In)) {
        cursor.take(Form::Keyword(Keyword::In))
    } else if cursor.at(Form::Keyword(Keyword::Out)) {
        cursor.take(Form::Keyword(Keyword::Out))
    } else if cursor.at(Form::Keyword(Keyword::Begin)) {
        cursor.take(Form::Keyword(Keyword::Begin))
    } else if cursor.at(Form::Keyword(Keyword::End)) {
        cursor.take(Form::Keyword(Keyword::End))
    } else {
        cursor.take(Form::Identifier)
    }
}

/// `downto`, or `to`.
#[tactic(auto, unfolding(crate::specs::Reading::direction_at))]
pub fn direction(cursor: &mut Cursor<'_>) -> Result<bool, Stop>
    ensures { Gives (λ b. b) result cursor.new (direction_at cursor.old) }
{
    let Some((next, _)) = cursor.rest().split_first() else {
        return Err(cursor.refuse(Reason::Syntax));
    };
    let falls = direction_named(text_of(next));
    let _word = cursor.take_fitting(Form::Identifier, falls.is_some())?;
    Ok(falls.unwrap_or(false))
}

/// A word that names a format.
#[tactic(auto, unfolding(crate::specs::Reading::named_format_at))]
pub fn named_format(cursor: &mut Cursor<'_>) -> Result<Radix, Stop>
    ensures { Gives (λ f. f) result cursor.new (named_format_at cursor.old) }
{
    let Some((next, _)) = cursor.rest().split_first() else {
        return Err(cursor.refuse(Reason::Syntax));
    };
    let format = format_named(text_of(next));
    let _word = cursor.take_fitting(Form::Identifier, format.is_some())?;
    Ok(format.unwrap_or(Radix::Binary))
}

/// A word that names a unit of time.
#[tactic(auto, unfolding(crate::specs::Reading::time_unit_at))]
pub fn time_unit(cursor: &mut Cursor<'_>) -> Result<TimeUnit, Stop>
    ensures { Gives (λ u. u) result cursor.new (time_unit_at cursor.old) }
{
    let Some((next, _)) = cursor.rest().split_first() else {
        return Err(cursor.refuse(Reason::Syntax));
    };
    let unit = unit_named(text_of(next));
    let _word = cursor.take_fitting(Form::Identifier, unit.is_some())?;
    Ok(unit.unwrap_or(TimeUnit::Femtosecond))
}

/// Digits of this format.
#[tactic(auto, unfolding(crate::specs::Reading::digits_at))]
pub fn digits<'a>(cursor: &mut Cursor<'a>, format: Radix) -> Result<&'a PlacedToken, Stop>
    ensures { Gives (λ t. t.now) result cursor.new (digits_at format cursor.old) }
{
    let Some((next, _)) = cursor.rest().split_first() else {
        return Err(cursor.refuse(Reason::Syntax));
    };
    let fits = are_digits(format, text_of(next));
    cursor.take_fitting(Form::Digits, fits)
}
