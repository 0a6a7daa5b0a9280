// What a reader has read so far, so that it can be read again.
ghost use Rattle.std.specs.Prelude.{◌≡◌, IfOk, OnOk, IfErr};
ghost use Rattle.grammar_theory.specs.Outcome.{start};
ghost use Rattle.vhdl_reader.specs.Place.{place, behind_read, behind_step, with_left, IsAccepted, IsAcceptedStep, AreAccepted};

use grammar_theory::Stop;
use std::alloc::{AllocError, Global};
use vhdl_front::Cursor;
use vhdl_token::PlacedToken;

/// What can be read.
#[derive(Clone, Copy)]
pub enum Kind {
    Expression,
    Entity,
    Declarations,
}

/// What was read, where so many parentheses more might be open, from where so many tokens were left.
#[derive(Clone, Copy)]
pub struct Step {
    pub kind: Kind,
    pub room: u32,
    pub left: usize,
}

/// Passes over tokens until so many are left.
fn pass(cursor: &mut Cursor, left: usize)
    ensures { cursor.new ≡ with_left left cursor.old }
{
    while cursor.rest().len() > left {
        cursor.skip();
    }
}

/// Reads this, and forgets it.
fn read(cursor: &mut Cursor, kind: Kind, room: u32) -> Result<(), Stop>
    ensures ok { OnOk result (cursor.new ≡ behind_read kind room cursor.old) }
    ensures again { IsAccepted kind room cursor.old → IfErr result (λ e. e ≡ Stop.Memory) }
{
    match kind {
        Kind::Expression => {
            cursor.restart();
            let _ = cursor.expression(room)?;
        }
        Kind::Entity => {
            let _ = cursor.entity(room)?;
        }
        Kind::Declarations => {
            let _ = cursor.declarations(room)?;
        }
    }
    Ok(())
}

/// Reads again what was accepted, which isn't refused then.
fn step_over(cursor: &mut Cursor, step: Step) -> Result<(), AllocError>
    requires { IsAcceptedStep step cursor.old }
    ensures { OnOk result (cursor.new ≡ behind_step step cursor.old) }
{
    pass(cursor, step.left);
    match read(cursor, step.kind, step.room) {
        Ok(()) => Ok(()),
        Err(Stop::Memory) => Err(AllocError),
        Err(Stop::Refused(_)) => unreachable!(),
    }
}

/// Reads again from the first of these tokens what was accepted, and passes over tokens until so many are left.
pub fn read_again<'a>(
    alloc: Global,
    tokens: &'a [PlacedToken],
    done: &[Step],
    left: usize,
) -> Result<Cursor<'a>, AllocError>
    requires { AreAccepted done.now (start tokens.now) }
    ensures { IfOk result (λ c. c ≡ with_left left (place done.now (start tokens.now))) }
{
    let mut cursor = Cursor::new(alloc, tokens);
    for step in done {
        step_over(&mut cursor, *step)?;
    }
    pass(&mut cursor, left);
    Ok(cursor)
}
