// Reading whole texts.
ghost use Rattle.std.specs.Prelude.{◌≡◌, IfOk, IfErr};
ghost use Rattle.grammar_theory.specs.Outcome.{Gives, finish};
ghost use Rattle.vst_text.specs.Vst.{IsStructure, IsRefusedStructure};
ghost use Rattle.vst_text.specs.VstReading.{architecture_at, structure_at};

use crate::declarations::declarations;
use crate::file::StructuralFile;
use crate::instances::instance_statements;
use grammar_theory::{DEPTH, Reason, Stop};
use std::alloc::Global;
use vbe_text::{architecture_head, repeated};
use vhdl_front::{Cursor, stop_error};
use vhdl_token::Tokens;
use vlsi_base::{Entity, Listed, ReadError};

/// The architecture of this entity.
#[tactic(auto, unfolding(crate::specs::VstReading::architecture_at))]
fn architecture(cursor: &mut Cursor, room: u32, entity: Entity) -> Result<StructuralFile, Stop>
    ensures { Gives (λ f. f) result cursor.new (architecture_at room entity cursor.old) }
{
    let name = architecture_head(cursor, entity.name.as_bytes())?;
    let declarations = declarations(cursor, room)?;
    let instances = instance_statements(cursor, room)?;
    repeated(cursor, name.as_bytes())?;
    Ok(StructuralFile {
        entity,
        declarations: Listed::new(declarations),
        instances,
    })
}

/// An entity and its architecture, and nothing behind them.
#[tactic(auto, unfolding(crate::specs::VstReading::structure_at))]
fn whole(cursor: &mut Cursor) -> Result<StructuralFile, Stop>
    ensures { Gives (λ f. f) result cursor.new (finish (structure_at DEPTH cursor.old)) }
{
    let entity = cursor.entity(DEPTH)?;
    let file = architecture(cursor, DEPTH, entity)?;
    if !cursor.rest().is_empty() {
        return Err(cursor.refuse(Reason::Syntax));
    }
    Ok(file)
}

/// Reads the tokens of a whole structural text: an entity, its architecture, and nothing behind them. The answer is what is
/// written there, in file order, with lines counted from 1; nothing is checked but the grammar, that no name is declared
/// twice (components, instances, and ports with signals each by themselves; names of a component's ports not at all), and the
/// limits of depth and bits. Else it is the error of the first token with which the text goes wrong (of the end, on the last
/// line), or `Memory`. Takes memory in proportion to the text, and time for the logarithm of the number of names beside.
pub fn read_structure(alloc: Global, tokens: &Tokens) -> Result<StructuralFile, ReadError>
    ensures accepted { IfOk result (λ f. IsStructure tokens.now f) }
    ensures refused { IfErr result (λ e. IsRefusedStructure tokens.now e) }
{
    let mut cursor = Cursor::new(alloc, tokens.items.as_slice());
    match whole(&mut cursor) {
        Ok(file) => Ok(file),
        Err(stop) => Err(stop_error(alloc, tokens.last_line, tokens.items.as_slice(), stop)),
    }
}
