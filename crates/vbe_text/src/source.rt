// Reading whole texts.
ghost use Rattle.std.specs.Prelude.{◌≡◌, ◌∷◌, [], map, IfOk, IfErr};
ghost use Rattle.grammar_theory.specs.Tokens.{code, among};
ghost use Rattle.grammar_theory.specs.Outcome.{Gives, finish};
ghost use Rattle.source_checks.specs.Operators.{HasShortExpressions};
ghost use Rattle.vbe_text.specs.Source.{statement_view, source_view};
ghost use Rattle.vbe_text.specs.Vbe.{IsSource, IsRefusedSource};
ghost use Rattle.vbe_text.specs.VbeReading.{labelled_at, unlabelled_at, plain_at, named_at, statement_at, statement_list_at, statements_at, belonging_at, architecture_head_at, architecture_at, source_at};

use crate::statement::{assertion, assignment, block, repeated};
use grammar_theory::{DEPTH, Form, Reason, Stop};
use source_checks::{DesignFile, Statement, Statements};
use std::alloc::Global;
use vhdl_front::{Cursor, name_bytes, stop_error};
use vhdl_token::{Keyword, Sign, Tokens};
use vlsi_base::{Entity, ReadError, Text};

#[tactic(auto, unfolding(crate::specs::VbeReading::plain_at))]
fn plain(cursor: &mut Cursor, room: u32) -> Result<Statement, Stop>
    ensures { Gives statement_view result cursor.new (plain_at room cursor.old) }
{
    let token = cursor.take(Form::Identifier)?;
    assignment(cursor, room, token)
}

/// A statement behind this label and its colon.
#[tactic(auto, unfolding(crate::specs::VbeReading::unlabelled_at))]
fn unlabelled(cursor: &mut Cursor, room: u32, label: &[u8]) -> Result<Statement, Stop>
    ensures { Gives statement_view result cursor.new (unlabelled_at room label.now cursor.old) }
{
    if cursor.at(Form::Keyword(Keyword::Assert)) {
        assertion(cursor, room)
    } else if cursor.at(Form::Keyword(Keyword::Block)) {
        block(cursor, room, label)
    } else {
        plain(cursor, room)
    }
}

/// A statement that begins with a name, its label or its target's.
#[tactic(auto, unfolding(crate::specs::VbeReading::named_at, crate::specs::VbeReading::labelled_at))]
fn named(cursor: &mut Cursor, room: u32) -> Result<Statement, Stop>
    ensures { Gives statement_view result cursor.new (named_at room cursor.old) }
{
    let token = cursor.take(Form::Identifier)?;
    if cursor.at(Form::Sign(Sign::Colon)) {
        let _colon = cursor.take(Form::Sign(Sign::Colon))?;
        unlabelled(cursor, room, name_bytes(token))
    } else {
        assignment(cursor, room, token)
    }
}

#[tactic(auto, unfolding(crate::specs::VbeReading::statement_at))]
fn statement(cursor: &mut Cursor, room: u32) -> Result<Statement, Stop>
    ensures { Gives statement_view result cursor.new (statement_at room cursor.old) }
{
    if cursor.at(Form::Keyword(Keyword::Assert)) {
        assertion(cursor, room)
    } else {
        named(cursor, room)
    }
}

/// Whether a statement may begin with the next token.
#[tactic(auto, using(crate::proofs::Whole::among_two))]
fn at_statement(cursor: &Cursor) -> bool
    ensures { result ≡ among (code (Form.Keyword Keyword.Assert) ∷ code Form.Identifier ∷ []) cursor.now.rest }
{
    cursor.at(Form::Keyword(Keyword::Assert)) || cursor.at(Form::Identifier)
}

/// Statements as long as there are any.
fn statement_list(cursor: &mut Cursor, room: u32) -> Result<Vec<Statement>, Stop>
    ensures { Gives (λ v. map statement_view v.items) result cursor.new (statement_list_at room cursor.old) }
{
    let mut statements = Vec::new(cursor.alloc());
    while at_statement(cursor) {
        let next = statement(cursor, room)?;
        statements.push(next)?;
    }
    Ok(statements)
}

/// The statements of an architecture, from its `begin` to its `end`.
#[tactic(auto, unfolding(crate::specs::VbeReading::statements_at))]
fn statements(cursor: &mut Cursor, room: u32) -> Result<Statements, Stop>
    ensures { Gives (λ s. map statement_view s) result cursor.new (statements_at room cursor.old) }
{
    let _begin = cursor.take(Form::Keyword(Keyword::Begin))?;
    let statements = statement_list(cursor, room)?;
    let _end = cursor.take(Form::Keyword(Keyword::End))?;
    Ok(Statements::new(statements))
}

/// The name of the entity that an architecture belongs to.
#[tactic(auto, unfolding(crate::specs::VbeReading::belonging_at))]
fn belonging(cursor: &mut Cursor, entity: &[u8]) -> Result<(), Stop>
    ensures { Gives (λ _. tt) result cursor.new (belonging_at entity.now cursor.old) }
{
    let _of = cursor.take(Form::Keyword(Keyword::Of))?;
    let _name = cursor.take_spelled(entity)?;
    let _is = cursor.take(Form::Keyword(Keyword::Is))?;
    Ok(())
}

/// The head of an architecture of this entity, and the architecture's name.
#[tactic(auto, unfolding(crate::specs::VbeReading::architecture_head_at))]
pub fn architecture_head(cursor: &mut Cursor, entity: &[u8]) -> Result<Text, Stop>
    ensures { Gives (λ n. n) result cursor.new (architecture_head_at entity.now cursor.old) }
{
    let _word = cursor.take(Form::Keyword(Keyword::Architecture))?;
    let name = cursor.name()?;
    belonging(cursor, entity)?;
    Ok(name)
}

/// The architecture of this entity.
#[tactic(auto, unfolding(crate::specs::VbeReading::architecture_at))]
fn architecture(cursor: &mut Cursor, room: u32, entity: Entity) -> Result<DesignFile, Stop>
    ensures { Gives source_view result cursor.new (architecture_at room entity cursor.old) }
{
    let name = architecture_head(cursor, entity.name.as_bytes())?;
    let declarations = cursor.declarations(room)?;
    let statements = statements(cursor, room)?;
    repeated(cursor, name.as_bytes())?;
    Ok(DesignFile {
        entity,
        declarations,
        statements,
    })
}

/// An entity and its architecture, and nothing behind them.
#[tactic(auto, unfolding(crate::specs::VbeReading::source_at))]
fn whole(cursor: &mut Cursor) -> Result<DesignFile, Stop>
    ensures { Gives source_view result cursor.new (finish (source_at DEPTH cursor.old)) }
{
    let entity = cursor.entity(DEPTH)?;
    let design = architecture(cursor, DEPTH, entity)?;
    if !cursor.rest().is_empty() {
        return Err(cursor.refuse(Reason::Syntax));
    }
    Ok(design)
}

/// Reads the tokens of a whole data-flow text: an entity, its architecture, and nothing behind them. The answer is what is
/// written there, in file order, with lines counted from 1; nothing is checked but the grammar, that no name is declared
/// twice, and the limits of depth, bits, operators and alternatives. Else it is the error of the first token with which
/// the text goes wrong (of the end, on the last line), or `Memory`. No expression of what is read has more operators than the
/// limit. Takes memory in proportion to the text.
pub fn read_source(alloc: Global, tokens: &Tokens) -> Result<DesignFile, ReadError>
    ensures accepted { IfOk result (λ design. IsSource tokens.now (source_view design)) }
    ensures refused { IfErr result (λ e. IsRefusedSource tokens.now e) }
    ensures short { IfOk result (λ design. HasShortExpressions design) }
{
    let mut cursor = Cursor::new(alloc, tokens.items.as_slice());
    match whole(&mut cursor) {
        Ok(design) => Ok(design),
        Err(stop) => Err(stop_error(alloc, tokens.last_line, tokens.items.as_slice(), stop)),
    }
}
