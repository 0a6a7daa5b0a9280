// Statements and conditions, put before others.
ghost use Rattle.std.specs.Prelude.{◌≡◌, IfOk};
ghost use Rattle.fsm_machine.specs.Statements.{finish};
ghost use Rattle.fsm_code.specs.View.{body_view, parts_view};
ghost use Rattle.fsm_merge.specs.Pieces.{with_piece, with_pieces, with_arm, with_arms};

use bool_expr::Expr;
use fsm_code::{Assignment, Branches, Parts, Statements};
use std::alloc::{AllocError, Global};

/// A statement without those behind it.
#[derive(Drop)]
pub enum Piece {
    Assign(Assignment),
    Choose(Box<Parts>),
    Select(Box<Branches>),
}

/// A condition of an `if` with its part, without those behind it.
#[derive(Drop)]
pub struct Arm {
    pub condition: Expr,
    pub part: Box<Statements>,
}

// A statement before others.
fn with_piece(alloc: Global, piece: Piece, rest: Statements) -> Result<Statements, AllocError>
    ensures { IfOk result (λ made. body_view made ≡ with_piece piece (body_view rest)) }
{
    let rest = Box::new(alloc, rest)?;
    match piece {
        Piece::Assign(assignment) => Ok(Statements::Assign(assignment, rest)),
        Piece::Choose(parts) => Ok(Statements::Choose(parts, rest)),
        Piece::Select(branches) => Ok(Statements::Select(branches, rest)),
    }
}

/// The statements one after another.
#[tactic(auto, using(crate::proofs::Stringing::with_pieces_push))]
pub fn with_pieces(alloc: Global, pieces: Vec<Piece>) -> Result<Statements, AllocError>
    ensures { IfOk result (λ made. body_view made ≡ with_pieces pieces.items finish) }
{
    let mut pieces = pieces;
    let mut made = Statements::Finish;
    while let Some(piece) = pieces.pop() {
        made = with_piece(alloc, piece, made)?;
    }
    Ok(made)
}

// A condition with its part before others.
fn with_arm(alloc: Global, arm: Arm, more: Parts) -> Result<Parts, AllocError>
    ensures { IfOk result (λ made. parts_view made ≡ with_arm arm (parts_view more)) }
{
    let more = Box::new(alloc, more)?;
    Ok(Parts::Further(arm.condition, arm.part, more))
}

/// The conditions one after another, before the last.
#[tactic(auto, using(crate::proofs::Stringing::with_arms_push))]
pub fn with_arms(alloc: Global, arms: Vec<Arm>, last: Parts) -> Result<Parts, AllocError>
    ensures { IfOk result (λ made. parts_view made ≡ with_arms arms.items (parts_view last)) }
{
    let mut arms = arms;
    let mut made = last;
    while let Some(arm) = arms.pop() {
        made = with_arm(alloc, arm, made)?;
    }
    Ok(made)
}
