// Reading whole pattern files.
ghost use Rattle.std.specs.Prelude.{◌≡◌, IfOk, IfErr};
ghost use Rattle.grammar_theory.specs.Outcome.{Gives, finish};
ghost use Rattle.pat_text.specs.Reading.{file_behind_at, file_at};
ghost use Rattle.pat_text.specs.Answers.{syntax_for, IsFile, IsRefusal};

use crate::columns::columns;
use crate::parsed::{ParsedColumn, ParsedColumns, ParsedPatterns, PatternFile};
use crate::patterns::patterns;
use grammar_theory::{Form, Reason, Stop};
use std::alloc::Global;
use vhdl_front::{Cursor, line_of};
use vhdl_token::{Keyword, Sign, Tokens};
use vlsi_base::{FaultKind, InputFault, Names, ReadError};

/// What stands behind the columns.
#[tactic(auto, unfolding(crate::specs::Reading::file_behind_at))]
fn file_behind(cursor: &mut Cursor<'_>, columns: Vec<ParsedColumn>) -> Result<PatternFile, Stop>
    ensures { Gives (λ f. f) result cursor.new (file_behind_at columns.items cursor.old) }
{
    let _begin = cursor.take(Form::Keyword(Keyword::Begin))?;
    let patterns = patterns(cursor, &columns)?;
    let _end = cursor.take(Form::Keyword(Keyword::End))?;
    let _semicolon = cursor.take(Form::Sign(Sign::Semicolon))?;
    Ok(PatternFile {
        columns: ParsedColumns::new(columns),
        patterns: ParsedPatterns::new(patterns),
    })
}

#[tactic(auto, unfolding(crate::specs::Reading::file_at))]
fn file(cursor: &mut Cursor<'_>) -> Result<PatternFile, Stop>
    ensures { Gives (λ f. f) result cursor.new (file_at cursor.old) }
{
    let columns = columns(cursor)?;
    file_behind(cursor, columns)
}

/// A file with nothing behind it.
fn whole_file(cursor: &mut Cursor<'_>) -> Result<PatternFile, Stop>
    ensures { Gives (λ f. f) result cursor.new (finish (file_at cursor.old)) }
{
    let parsed = file(cursor)?;
    if !cursor.rest().is_empty() {
        return Err(cursor.refuse(Reason::Syntax));
    }
    Ok(parsed)
}

/// The refusal of the token from which on so many are left.
fn syntax(alloc: Global, tokens: &Tokens, left: usize) -> ReadError
    ensures { result ≡ syntax_for tokens.now left }
{
    ReadError::Input(InputFault {
        line: line_of(tokens.last_line, tokens.items.as_slice(), left),
        kind: FaultKind::Syntax,
        names: Names::new(Vec::new(alloc)),
    })
}

/// Reads the tokens of a pattern file. A column without a format is binary; a time has its unit as it is written, and values
/// are digits yet, which nothing is asked of but that they are of their column's format.
///
/// `Input` with `Syntax` and no names at the first token with which the tokens so far begin no pattern file: also at a word
/// or digits that don't fit their place, and at the first value too few or too many. Memory goes by the number of tokens and
/// their texts, and so does time.
pub fn read_patterns(alloc: Global, tokens: &Tokens) -> Result<PatternFile, ReadError>
    ensures read { IfOk result (λ parsed. IsFile tokens.now.items parsed) }
    ensures refused { IfErr result (λ e. IsRefusal tokens.now e) }
{
    let mut cursor = Cursor::new(alloc, tokens.items.as_slice());
    match whole_file(&mut cursor) {
        Ok(parsed) => Ok(parsed),
        Err(Stop::Memory) => Err(ReadError::Memory),
        Err(Stop::Refused(refusal)) => Err(syntax(alloc, tokens, refusal.left)),
    }
}
