// Reading components.
ghost use Rattle.std.specs.Prelude.{◌≡◌, ◌-◌, ◌∷◌, []};
ghost use Rattle.grammar_theory.specs.Tokens.{code};
ghost use Rattle.grammar_theory.specs.Outcome.{Gives, list_at, with_front};
ghost use Rattle.vst_text.specs.VstReading.{bare_name_at, another_bare_at, led_bare_at, own_bare_at, bare_names_at, component_port_at, next_component_port_at, opened_ports_at, component_ports_at, component_end_at, component_at};

use crate::file::Component;
use grammar_theory::{Form, Stop};
use vbe_text::repeated;
use vhdl_front::{Cursor, name_bytes};
use vhdl_token::{Keyword, Sign};
use vlsi_base::{NewName, NewNames, PortGroup, PortGroups, Text};

#[tactic(auto, unfolding(crate::specs::VstReading::bare_name_at))]
fn bare_name(cursor: &mut Cursor) -> Result<NewName, Stop>
    ensures { Gives (λ n. n) result cursor.new (bare_name_at cursor.old) }
{
    let token = cursor.take(Form::Identifier)?;
    let text = Text::from_bytes(cursor.alloc(), name_bytes(token))?;
    Ok(NewName {
        text,
        line: token.line,
    })
}

#[tactic(auto, unfolding(crate::specs::VstReading::another_bare_at))]
fn another_bare(cursor: &mut Cursor) -> Result<NewName, Stop>
    ensures { Gives (λ n. n) result cursor.new (another_bare_at cursor.old) }
{
    let _comma = cursor.take(Form::Sign(Sign::Comma))?;
    bare_name(cursor)
}

/// The first name, and those behind it.
fn more_names(cursor: &mut Cursor, first: NewName) -> Result<Vec<NewName>, Stop>
    ensures { Gives (λ v. v.items) result cursor.new
        (with_front (first ∷ []) (list_at (code (Form.Sign Sign.Comma) ∷ []) another_bare_at cursor.old)) }
{
    let mut names = Vec::new(cursor.alloc());
    names.push(first)?;
    while cursor.at(Form::Sign(Sign::Comma)) {
        let next = another_bare(cursor)?;
        names.push(next)?;
    }
    Ok(names)
}

/// Names behind a word, and its line.
#[tactic(auto, unfolding(crate::specs::VstReading::led_bare_at))]
fn led_names(cursor: &mut Cursor, word: Keyword) -> Result<(u32, NewNames), Stop>
    ensures { Gives (λ n. n) result cursor.new (led_bare_at word cursor.old) }
{
    let line = cursor.take(Form::Keyword(word))?.line;
    let first = bare_name(cursor)?;
    let names = more_names(cursor, first)?;
    Ok((line, NewNames::new(names)))
}

/// Names with no word before them, and the line of the first.
#[tactic(auto, unfolding(crate::specs::VstReading::own_bare_at))]
fn own_names(cursor: &mut Cursor) -> Result<(u32, NewNames), Stop>
    ensures { Gives (λ n. n) result cursor.new (own_bare_at cursor.old) }
{
    let first = bare_name(cursor)?;
    let line = first.line;
    let names = more_names(cursor, first)?;
    Ok((line, NewNames::new(names)))
}

/// Names of ports, and the line of the first token.
#[tactic(auto, unfolding(crate::specs::VstReading::bare_names_at))]
fn names(cursor: &mut Cursor) -> Result<(u32, NewNames), Stop>
    ensures { Gives (λ n. n) result cursor.new (bare_names_at cursor.old) }
{
    if cursor.at(Form::Keyword(Keyword::Signal)) {
        led_names(cursor, Keyword::Signal)
    } else {
        own_names(cursor)
    }
}

#[tactic(auto, unfolding(crate::specs::VstReading::component_port_at))]
fn port(cursor: &mut Cursor, room: u32) -> Result<PortGroup, Stop>
    ensures { Gives (λ p. p) result cursor.new (component_port_at room cursor.old) }
{
    let (line, names) = names(cursor)?;
    cursor.port_behind(room, line, names)
}

#[tactic(auto, unfolding(crate::specs::VstReading::next_component_port_at))]
fn next_port(cursor: &mut Cursor, room: u32) -> Result<PortGroup, Stop>
    ensures { Gives (λ p. p) result cursor.new (next_component_port_at room cursor.old) }
{
    let _semicolon = cursor.take(Form::Sign(Sign::Semicolon))?;
    port(cursor, room)
}

/// The first ports, and those behind them.
fn more_ports(cursor: &mut Cursor, room: u32, first: PortGroup) -> Result<Vec<PortGroup>, Stop>
    ensures { Gives (λ v. v.items) result cursor.new
        (with_front (first ∷ []) (list_at (code (Form.Sign Sign.Semicolon) ∷ []) (next_component_port_at room) cursor.old)) }
{
    let mut ports = Vec::new(cursor.alloc());
    ports.push(first)?;
    while cursor.at(Form::Sign(Sign::Semicolon)) {
        let next = next_port(cursor, room)?;
        ports.push(next)?;
    }
    Ok(ports)
}

#[tactic(auto, unfolding(crate::specs::VstReading::opened_ports_at, vhdl_front::specs::EntityReading::closed_at))]
fn opened_ports(cursor: &mut Cursor, room: u32) -> Result<PortGroups, Stop>
    ensures { Gives (λ p. p) result cursor.new (opened_ports_at room cursor.old) }
{
    let first = port(cursor, room)?;
    let ports = more_ports(cursor, room, first)?;
    let _close = cursor.take(Form::Sign(Sign::RightParen))?;
    let _semicolon = cursor.take(Form::Sign(Sign::Semicolon))?;
    Ok(PortGroups::new(ports))
}

#[tactic(auto, unfolding(crate::specs::VstReading::component_ports_at))]
fn ports(cursor: &mut Cursor, room: u32) -> Result<PortGroups, Stop>
    ensures { Gives (λ p. p) result cursor.new (component_ports_at room cursor.old) }
{
    let _word = cursor.take(Form::Keyword(Keyword::Port))?;
    let _open = cursor.open(room)?;
    opened_ports(cursor, room - 1)
}

/// The end of a component, whose name may stand there again.
#[tactic(auto, unfolding(crate::specs::VstReading::component_end_at))]
fn component_end(cursor: &mut Cursor, component: Component) -> Result<Component, Stop>
    ensures { Gives (λ c. c) result cursor.new (component_end_at component.name component cursor.old) }
{
    let _end = cursor.take(Form::Keyword(Keyword::End))?;
    let _word = cursor.take(Form::Keyword(Keyword::Component))?;
    repeated(cursor, component.name.as_bytes())?;
    Ok(component)
}

/// A component, where so many more parentheses may be open.
#[tactic(auto, unfolding(crate::specs::VstReading::component_at, crate::specs::VstReading::component_behind_at))]
pub fn component(cursor: &mut Cursor, room: u32) -> Result<Component, Stop>
    ensures { Gives (λ c. c) result cursor.new (component_at room cursor.old) }
{
    let line = cursor.take(Form::Keyword(Keyword::Component))?.line;
    let token = cursor.enter(b"component ", line)?;
    let name = Text::from_bytes(cursor.alloc(), name_bytes(token))?;
    let ports = ports(cursor, room)?;
    component_end(cursor, Component { line, name, ports })
}
