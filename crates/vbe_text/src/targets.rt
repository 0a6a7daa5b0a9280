// Reading targets of assignments.
ghost use Rattle.std.specs.Prelude.{◌≡◌};
ghost use Rattle.grammar_theory.specs.Outcome.{Gives};
ghost use Rattle.vbe_text.specs.VbeReading.{range_at, selected_at, selecting_at, target_behind_at, target_at};

use grammar_theory::{Form, Stop};
use source_checks::{Selection, Target};
use vhdl_front::{Cursor, name_bytes};
use vhdl_token::{PlacedToken, Sign};
use vlsi_base::{Range, Text};

/// A range behind its first number, for the line of its parenthesis.
#[tactic(auto, unfolding(crate::specs::VbeReading::range_at, vhdl_front::specs::Reading::closing_at))]
fn range(cursor: &mut Cursor, paren: u32, left: u32) -> Result<Selection, Stop>
    ensures { Gives (λ s. s) result cursor.new (range_at paren left cursor.old) }
{
    let falls = cursor.direction()?;
    let right = cursor.number()?;
    let _close = cursor.take(Form::Sign(Sign::RightParen))?;
    Ok(Selection::Bits(Range {
        left,
        falls,
        right,
        line: paren,
    }))
}

/// An index or a range behind its parenthesis.
#[tactic(auto, unfolding(crate::specs::VbeReading::selected_at, vhdl_front::specs::Reading::closing_at))]
fn selected(cursor: &mut Cursor, paren: u32) -> Result<Selection, Stop>
    ensures { Gives (λ s. s) result cursor.new (selected_at paren cursor.old) }
{
    let left = cursor.number()?;
    if cursor.at(Form::Sign(Sign::RightParen)) {
        let _close = cursor.take(Form::Sign(Sign::RightParen))?;
        Ok(Selection::Bit(left))
    } else {
        range(cursor, paren, left)
    }
}

/// What stands behind the name of a target.
#[tactic(auto, unfolding(crate::specs::VbeReading::selecting_at, crate::specs::VbeReading::opened_at))]
fn selecting(cursor: &mut Cursor, room: u32) -> Result<Selection, Stop>
    ensures { Gives (λ s. s) result cursor.new (selecting_at room cursor.old) }
{
    if cursor.at(Form::Sign(Sign::LeftParen)) {
        let paren = cursor.open(room)?.line;
        selected(cursor, paren)
    } else {
        Ok(Selection::Whole)
    }
}

/// A target behind its name, which is this token.
#[tactic(auto, unfolding(crate::specs::VbeReading::target_behind_at))]
pub fn target_behind(cursor: &mut Cursor, room: u32, token: &PlacedToken) -> Result<Target, Stop>
    ensures { Gives (λ t. t) result cursor.new (target_behind_at room token.now cursor.old) }
{
    let name = Text::from_bytes(cursor.alloc(), name_bytes(token))?;
    let selection = selecting(cursor, room)?;
    Ok(Target {
        name,
        line: token.line,
        selection,
    })
}

/// A target, where so many more parentheses may be open.
#[tactic(auto, unfolding(crate::specs::VbeReading::target_at))]
pub fn target(cursor: &mut Cursor, room: u32) -> Result<Target, Stop>
    ensures { Gives (λ t. t) result cursor.new (target_at room cursor.old) }
{
    let token = cursor.take(Form::Identifier)?;
    target_behind(cursor, room, token)
}
