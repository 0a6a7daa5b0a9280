// Reading patterns.
ghost use Rattle.std.specs.Prelude.{◌≡◌};
ghost use Rattle.grammar_theory.specs.Outcome.{Gives};
ghost use Rattle.pat_text.specs.Reading.{given_at, anything_at, wanted_at, expected_at, value_at, values_at, plus_at, added_at, stamp_at, labelled_at, label_at, pattern_at, patterns_at};

use crate::parsed::{ParsedColumn, ParsedPattern, ParsedValue, ParsedValues};
use crate::words::{digits, text_of, time_unit};
use grammar_theory::{Form, Stop};
use pat_meaning::Time;
use vhdl_front::Cursor;
use vhdl_token::{Keyword, Sign};
use vlsi_base::{Dir, Radix, Text};

/// A value of an input.
#[tactic(auto, unfolding(crate::specs::Reading::given_at))]
fn given(cursor: &mut Cursor<'_>, format: Radix) -> Result<ParsedValue, Stop>
    ensures { Gives (λ v. v) result cursor.new (given_at format cursor.old) }
{
    let token = digits(cursor, format)?;
    let digits = Text::from_bytes(cursor.alloc(), text_of(token))?;
    Ok(ParsedValue {
        line: token.line,
        digits: Some(digits),
    })
}

/// The star behind a question mark on this line.
#[tactic(auto, unfolding(crate::specs::Reading::anything_at))]
fn anything(cursor: &mut Cursor<'_>, line: u32) -> Result<ParsedValue, Stop>
    ensures { Gives (λ v. v) result cursor.new (anything_at line cursor.old) }
{
    let _star = cursor.take(Form::Sign(Sign::Star))?;
    Ok(ParsedValue { line, digits: None })
}

/// The digits behind a question mark on this line.
#[tactic(auto, unfolding(crate::specs::Reading::wanted_at))]
fn wanted(cursor: &mut Cursor<'_>, line: u32, format: Radix) -> Result<ParsedValue, Stop>
    ensures { Gives (λ v. v) result cursor.new (wanted_at line format cursor.old) }
{
    let token = digits(cursor, format)?;
    let digits = Text::from_bytes(cursor.alloc(), text_of(token))?;
    Ok(ParsedValue {
        line,
        digits: Some(digits),
    })
}

/// A value of an output.
#[tactic(auto, unfolding(crate::specs::Reading::expected_at))]
fn expected(cursor: &mut Cursor<'_>, format: Radix) -> Result<ParsedValue, Stop>
    ensures { Gives (λ v. v) result cursor.new (expected_at format cursor.old) }
{
    let line = cursor.take(Form::Sign(Sign::Question))?.line;
    if cursor.at(Form::Sign(Sign::Star)) {
        anything(cursor, line)
    } else {
        wanted(cursor, line, format)
    }
}

#[tactic(auto, unfolding(crate::specs::Reading::value_at))]
fn value(cursor: &mut Cursor<'_>, dir: Dir, format: Radix) -> Result<ParsedValue, Stop>
    ensures { Gives (λ v. v) result cursor.new (value_at dir format cursor.old) }
{
    match dir {
        Dir::In => given(cursor, format),
        Dir::Out => expected(cursor, format),
    }
}

/// A value for each column, and a semicolon.
fn values(cursor: &mut Cursor<'_>, columns: &[ParsedColumn]) -> Result<Vec<ParsedValue>, Stop>
    ensures { Gives (λ v. v.items) result cursor.new (values_at columns.now cursor.old) }
{
    let mut values = Vec::new(cursor.alloc());
    for column in columns {
        let next = value(cursor, column.dir, column.format)?;
        values.push(next)?;
    }
    let _end = cursor.take(Form::Sign(Sign::Semicolon))?;
    Ok(values)
}

/// Whether a time is added to that of the pattern before.
#[tactic(auto, unfolding(crate::specs::Reading::added_at, crate::specs::Reading::plus_at))]
fn added(cursor: &mut Cursor<'_>) -> Result<bool, Stop>
    ensures { Gives (λ b. b) result cursor.new (added_at cursor.old) }
{
    if cursor.at(Form::Sign(Sign::Plus)) {
        let _plus = cursor.take(Form::Sign(Sign::Plus))?;
        Ok(true)
    } else {
        Ok(false)
    }
}

/// A time, and the line on which it begins.
#[tactic(auto, unfolding(crate::specs::Reading::stamp_at))]
fn stamp(cursor: &mut Cursor<'_>) -> Result<(u32, Time), Stop>
    ensures { Gives (λ s. s) result cursor.new (stamp_at cursor.old) }
{
    let line = cursor.take(Form::Sign(Sign::Less))?.line;
    let is_added = added(cursor)?;
    let number = cursor.number()?;
    let unit = time_unit(cursor)?;
    let _close = cursor.take(Form::Sign(Sign::Greater))?;
    Ok((
        line,
        Time {
            is_added,
            number,
            unit,
        },
    ))
}

#[tactic(auto, unfolding(crate::specs::Reading::labelled_at))]
fn labelled(cursor: &mut Cursor<'_>, form: Form) -> Result<Option<Text>, Stop>
    ensures { Gives (λ l. l) result cursor.new (labelled_at form cursor.old) }
{
    let token = cursor.take(form)?;
    let label = Text::from_bytes(cursor.alloc(), text_of(token))?;
    Ok(Some(label))
}

/// A word, or nothing.
#[tactic(auto, unfolding(crate::specs::Reading::label_at))]
fn label(cursor: &mut Cursor<'_>) -> Result<Option<Text>, Stop>
    ensures { Gives (λ l. l) result cursor.new (label_at cursor.old) }
{
    if cursor.at(Form::Keyword(Keyword::In)) {
        labelled(cursor, Form::Keyword(Keyword::In))
    } else if cursor.at(Form::Keyword(Keyword::Out)) {
        labelled(cursor, Form::Keyword(Keyword::Out))
    } else if cursor.at(Form::Keyword(Keyword::Begin)) {
        labelled(cursor, Form::Keyword(Keyword::Begin))
    } else if cursor.at(Form::Keyword(Keyword::End)) {
        labelled(cursor, Form::Keyword(Keyword::End))
    } else if cursor.at(Form::Identifier) {
        labelled(cursor, Form::Identifier)
    } else {
        Ok(None)
    }
}

/// A pattern for these columns.
#[tactic(auto, unfolding(crate::specs::Reading::pattern_at))]
fn pattern(cursor: &mut Cursor<'_>, columns: &[ParsedColumn]) -> Result<ParsedPattern, Stop>
    ensures { Gives (λ p. p) result cursor.new (pattern_at columns.now cursor.old) }
{
    let (line, time) = stamp(cursor)?;
    let label = label(cursor)?;
    let _colon = cursor.take(Form::Sign(Sign::Colon))?;
    let values = values(cursor, columns)?;
    Ok(ParsedPattern {
        line,
        time,
        label,
        values: ParsedValues::new(values),
    })
}

/// Patterns for these columns, as many as there are.
#[tactic(auto, unfolding(crate::specs::Reading::patterns_at))]
pub fn patterns(
    cursor: &mut Cursor<'_>,
    columns: &[ParsedColumn],
) -> Result<Vec<ParsedPattern>, Stop>
    ensures { Gives (λ v. v.items) result cursor.new (patterns_at columns.now cursor.old) }
{
    let mut patterns = Vec::new(cursor.alloc());
    while cursor.at(Form::Sign(Sign::Less)) {
        let next = pattern(cursor, columns)?;
        patterns.push(next)?;
    }
    Ok(patterns)
}
