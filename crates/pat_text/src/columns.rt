// Reading columns.
ghost use Rattle.std.specs.Prelude.{◌≡◌};
ghost use Rattle.grammar_theory.specs.Tokens.{among};
ghost use Rattle.grammar_theory.specs.Outcome.{Gives};
ghost use Rattle.pat_text.specs.Reading.{one_dir_at, column_dir_at, range_at, optional_range_at, format_at, semicolons_at, column_end_at, column_behind_at, column_at, columns_at, column_firsts, Skips};

use crate::parsed::ParsedColumn;
use crate::words::{any_word, direction, named_format, text_of};
use grammar_theory::{Form, Stop};
use vhdl_front::Cursor;
use vhdl_token::{Keyword, PlacedToken, Sign};
use vlsi_base::{Dir, Radix, Range, Text};

#[tactic(auto, unfolding(crate::specs::Reading::one_dir_at))]
fn one_dir(cursor: &mut Cursor<'_>, word: Keyword, dir: Dir) -> Result<Dir, Stop>
    ensures { Gives (λ d. d) result cursor.new (one_dir_at word dir cursor.old) }
{
    let _word = cursor.take(Form::Keyword(word))?;
    Ok(dir)
}

#[tactic(auto, unfolding(crate::specs::Reading::column_dir_at))]
fn column_dir(cursor: &mut Cursor<'_>) -> Result<Dir, Stop>
    ensures { Gives (λ d. d) result cursor.new (column_dir_at cursor.old) }
{
    if cursor.at(Form::Keyword(Keyword::In)) {
        one_dir(cursor, Keyword::In, Dir::In)
    } else {
        one_dir(cursor, Keyword::Out, Dir::Out)
    }
}

#[tactic(auto, unfolding(crate::specs::Reading::range_at))]
fn range(cursor: &mut Cursor<'_>) -> Result<Option<Range>, Stop>
    ensures { Gives (λ r. r) result cursor.new (range_at cursor.old) }
{
    let line = cursor.take(Form::Sign(Sign::LeftParen))?.line;
    let left = cursor.number()?;
    let falls = direction(cursor)?;
    let right = cursor.number()?;
    let _close = cursor.take(Form::Sign(Sign::RightParen))?;
    Ok(Some(Range {
        left,
        falls,
        right,
        line,
    }))
}

#[tactic(auto, unfolding(crate::specs::Reading::optional_range_at))]
fn optional_range(cursor: &mut Cursor<'_>) -> Result<Option<Range>, Stop>
    ensures { Gives (λ r. r) result cursor.new (optional_range_at cursor.old) }
{
    if cursor.at(Form::Sign(Sign::LeftParen)) {
        range(cursor)
    } else {
        Ok(None)
    }
}

#[tactic(auto, unfolding(crate::specs::Reading::format_at))]
fn format(cursor: &mut Cursor<'_>) -> Result<Radix, Stop>
    ensures { Gives (λ f. f) result cursor.new (format_at cursor.old) }
{
    if cursor.at(Form::Identifier) {
        named_format(cursor)
    } else {
        Ok(Radix::Binary)
    }
}

/// Semicolons, as many as there are.
fn semicolons(cursor: &mut Cursor<'_>) -> Result<(), Stop>
    ensures { Skips result cursor.new (semicolons_at cursor.old) }
{
    while cursor.at(Form::Sign(Sign::Semicolon)) {
        let _next = cursor.take(Form::Sign(Sign::Semicolon))?;
    }
    Ok(())
}

/// One semicolon or more.
#[tactic(auto, unfolding(crate::specs::Reading::column_end_at))]
fn column_end<'a>(cursor: &mut Cursor<'a>) -> Result<&'a PlacedToken, Stop>
    ensures { Gives (λ t. t.now) result cursor.new (column_end_at cursor.old) }
{
    let first = cursor.take(Form::Sign(Sign::Semicolon))?;
    semicolons(cursor)?;
    Ok(first)
}

/// A column behind its direction.
#[tactic(auto, unfolding(crate::specs::Reading::column_behind_at))]
fn column_behind(cursor: &mut Cursor<'_>, dir: Dir) -> Result<ParsedColumn, Stop>
    ensures { Gives (λ c. c) result cursor.new (column_behind_at dir cursor.old) }
{
    let word = any_word(cursor)?;
    let name = Text::from_bytes(cursor.alloc(), text_of(word))?;
    let range = optional_range(cursor)?;
    let format = format(cursor)?;
    let _end = column_end(cursor)?;
    Ok(ParsedColumn {
        name,
        line: word.line,
        dir,
        range,
        format,
    })
}

#[tactic(auto, unfolding(crate::specs::Reading::column_at))]
fn column(cursor: &mut Cursor<'_>) -> Result<ParsedColumn, Stop>
    ensures { Gives (λ c. c) result cursor.new (column_at cursor.old) }
{
    let dir = column_dir(cursor)?;
    column_behind(cursor, dir)
}

/// Whether a column begins here.
fn at_column(cursor: &Cursor<'_>) -> bool
    ensures { result ≡ among column_firsts cursor.now.rest }
{
    cursor.at(Form::Keyword(Keyword::In)) || cursor.at(Form::Keyword(Keyword::Out))
}

/// Columns, as many as there are.
#[tactic(auto, unfolding(crate::specs::Reading::columns_at))]
pub fn columns(cursor: &mut Cursor<'_>) -> Result<Vec<ParsedColumn>, Stop>
    ensures { Gives (λ v. v.items) result cursor.new (columns_at cursor.old) }
{
    let mut columns = Vec::new(cursor.alloc());
    while at_column(cursor) {
        let next = column(cursor)?;
        columns.push(next)?;
    }
    Ok(columns)
}
