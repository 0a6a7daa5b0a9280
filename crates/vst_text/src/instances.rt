// Reading instances.
ghost use Rattle.std.specs.Prelude.{◌≡◌, ◌-◌, ◌∷◌, []};
ghost use Rattle.grammar_theory.specs.Tokens.{code};
ghost use Rattle.grammar_theory.specs.Outcome.{Gives, list_at, with_front};
ghost use Rattle.vst_text.specs.VstReading.{index_at, pin_at, association_at, next_association_at, associations_at, port_map_at, instance_statement_at, instance_list_at, instance_statements_at};

use crate::file::{Association, InstanceStatement, PinName};
use grammar_theory::{Form, Stop};
use vbe_text::target;
use vhdl_front::{Cursor, name_bytes};
use vhdl_token::{Keyword, Sign};
use vlsi_base::{Listed, Text};

/// A number in parentheses, which may be left out.
#[tactic(auto, unfolding(crate::specs::VstReading::index_at, crate::specs::VstReading::opened_index_at, vhdl_front::specs::Reading::closing_at))]
fn index(cursor: &mut Cursor, room: u32) -> Result<Option<u32>, Stop>
    ensures { Gives (λ b. b) result cursor.new (index_at room cursor.old) }
{
    if cursor.at(Form::Sign(Sign::LeftParen)) {
        let _open = cursor.open(room)?;
        let number = cursor.number()?;
        let _close = cursor.take(Form::Sign(Sign::RightParen))?;
        Ok(Some(number))
    } else {
        Ok(None)
    }
}

#[tactic(auto, unfolding(crate::specs::VstReading::pin_at))]
fn pin(cursor: &mut Cursor, room: u32) -> Result<PinName, Stop>
    ensures { Gives (λ p. p) result cursor.new (pin_at room cursor.old) }
{
    let token = cursor.take(Form::Identifier)?;
    let text = Text::from_bytes(cursor.alloc(), name_bytes(token))?;
    let bit = index(cursor, room)?;
    Ok(PinName {
        text,
        bit,
        line: token.line,
    })
}

#[tactic(auto, unfolding(crate::specs::VstReading::association_at))]
fn association(cursor: &mut Cursor, room: u32) -> Result<Association, Stop>
    ensures { Gives (λ a. a) result cursor.new (association_at room cursor.old) }
{
    let pin = pin(cursor, room)?;
    let _arrow = cursor.take(Form::Sign(Sign::Arrow))?;
    let net = target(cursor, room)?;
    Ok(Association { pin, net })
}

#[tactic(auto, unfolding(crate::specs::VstReading::next_association_at))]
fn next_association(cursor: &mut Cursor, room: u32) -> Result<Association, Stop>
    ensures { Gives (λ a. a) result cursor.new (next_association_at room cursor.old) }
{
    let _comma = cursor.take(Form::Sign(Sign::Comma))?;
    association(cursor, room)
}

/// The first association, and those behind it.
fn more_associations(
    cursor: &mut Cursor,
    room: u32,
    first: Association,
) -> Result<Vec<Association>, Stop>
    ensures { Gives (λ v. v.items) result cursor.new
        (with_front (first ∷ []) (list_at (code (Form.Sign Sign.Comma) ∷ []) (next_association_at room) cursor.old)) }
{
    let mut associations = Vec::new(cursor.alloc());
    associations.push(first)?;
    while cursor.at(Form::Sign(Sign::Comma)) {
        let next = next_association(cursor, room)?;
        associations.push(next)?;
    }
    Ok(associations)
}

/// Associations behind their parenthesis, and the line of the one that closes them.
#[tactic(auto, unfolding(crate::specs::VstReading::associations_at))]
fn associations(cursor: &mut Cursor, room: u32) -> Result<(Listed<Association>, u32), Stop>
    ensures { Gives (λ a. a) result cursor.new (associations_at room cursor.old) }
{
    let first = association(cursor, room)?;
    let associations = more_associations(cursor, room, first)?;
    let line = cursor.take(Form::Sign(Sign::RightParen))?.line;
    let _semicolon = cursor.take(Form::Sign(Sign::Semicolon))?;
    Ok((Listed::new(associations), line))
}

#[tactic(auto, unfolding(crate::specs::VstReading::port_map_at))]
fn port_map(cursor: &mut Cursor, room: u32) -> Result<(Listed<Association>, u32), Stop>
    ensures { Gives (λ a. a) result cursor.new (port_map_at room cursor.old) }
{
    let _port = cursor.take(Form::Keyword(Keyword::Port))?;
    let _map = cursor.take(Form::Keyword(Keyword::Map))?;
    let _open = cursor.open(room)?;
    associations(cursor, room - 1)
}

/// An instance, where so many more parentheses may be open.
#[tactic(auto, unfolding(crate::specs::VstReading::instance_statement_at))]
fn instance_statement(cursor: &mut Cursor, room: u32) -> Result<InstanceStatement, Stop>
    ensures { Gives (λ i. i) result cursor.new (instance_statement_at room cursor.old) }
{
    let label = cursor.enter_first(b"instance ")?;
    let _colon = cursor.take(Form::Sign(Sign::Colon))?;
    let component = cursor.take(Form::Identifier)?;
    let (associations, end_line) = port_map(cursor, room)?;
    Ok(InstanceStatement {
        label: Text::from_bytes(cursor.alloc(), name_bytes(label))?,
        line: label.line,
        component: Text::from_bytes(cursor.alloc(), name_bytes(component))?,
        component_line: component.line,
        associations,
        end_line,
    })
}

/// Instances as long as there are any.
fn instance_list(cursor: &mut Cursor, room: u32) -> Result<Vec<InstanceStatement>, Stop>
    ensures { Gives (λ v. v.items) result cursor.new (instance_list_at room cursor.old) }
{
    let mut instances = Vec::new(cursor.alloc());
    while cursor.at(Form::Identifier) {
        let next = instance_statement(cursor, room)?;
        instances.push(next)?;
    }
    Ok(instances)
}

/// The instances of an architecture, from its `begin` to its `end`.
#[tactic(auto, unfolding(crate::specs::VstReading::instance_statements_at))]
pub fn instance_statements(
    cursor: &mut Cursor,
    room: u32,
) -> Result<Listed<InstanceStatement>, Stop>
    ensures { Gives (λ s. s) result cursor.new (instance_statements_at room cursor.old) }
{
    let _begin = cursor.take(Form::Keyword(Keyword::Begin))?;
    let instances = instance_list(cursor, room)?;
    let _end = cursor.take(Form::Keyword(Keyword::End))?;
    Ok(Listed::new(instances))
}
