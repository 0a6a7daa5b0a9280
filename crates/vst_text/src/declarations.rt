// Reading what stands between `is` and `begin`.
ghost use Rattle.std.specs.Prelude.{◌≡◌, ◌∷◌, [], length};
ghost use Rattle.grammar_theory.specs.Tokens.{code, among};
ghost use Rattle.grammar_theory.specs.Outcome.{Gives};
ghost use Rattle.vst_text.specs.VstReading.{signal_at, declaration_at, declaration_list_at};

use crate::components::component;
use crate::file::Declaration;
use grammar_theory::{Form, Stop};
use vhdl_front::Cursor;
use vhdl_token::{Keyword, Sign};
use vlsi_base::SignalGroup;

#[tactic(auto, unfolding(crate::specs::VstReading::signal_at))]
fn signals(cursor: &mut Cursor, room: u32) -> Result<SignalGroup, Stop>
    ensures { Gives (λ s. s) result cursor.new (signal_at room cursor.old) }
{
    let (line, names) = cursor.led_names(Keyword::Signal)?;
    let _colon = cursor.take(Form::Sign(Sign::Colon))?;
    let kind = cursor.port_type(room, names.as_slice().len())?;
    let _semicolon = cursor.take(Form::Sign(Sign::Semicolon))?;
    Ok(SignalGroup { line, names, kind })
}

#[tactic(auto, unfolding(crate::specs::VstReading::declaration_at, crate::specs::VstReading::new_component_at, crate::specs::VstReading::declared_signals_at))]
fn declaration(cursor: &mut Cursor, room: u32) -> Result<Declaration, Stop>
    ensures { Gives (λ d. d) result cursor.new (declaration_at room cursor.old) }
{
    if cursor.at(Form::Keyword(Keyword::Component)) {
        let component = component(cursor, room)?;
        Ok(Declaration::Component(component))
    } else {
        let signals = signals(cursor, room)?;
        Ok(Declaration::Signals(signals))
    }
}

/// Whether a declaration may begin with the next token.
#[tactic(auto, using(vbe_text::proofs::Whole::among_two))]
fn at_declaration(cursor: &Cursor) -> bool
    ensures { result ≡ among (code (Form.Keyword Keyword.Component) ∷ code (Form.Keyword Keyword.Signal) ∷ []) cursor.now.rest }
{
    cursor.at(Form::Keyword(Keyword::Component)) || cursor.at(Form::Keyword(Keyword::Signal))
}

/// Declarations as long as there are any.
pub fn declarations(cursor: &mut Cursor, room: u32) -> Result<Vec<Declaration>, Stop>
    ensures { Gives (λ v. v.items) result cursor.new (declaration_list_at room cursor.old) }
{
    let mut declarations = Vec::new(cursor.alloc());
    while at_declaration(cursor) {
        let next = declaration(cursor, room)?;
        declarations.push(next)?;
    }
    Ok(declarations)
}
