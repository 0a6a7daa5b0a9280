// The moves of a state, one for each vector.
ghost use Rattle.std.specs.Prelude.{◌≡◌, length, map, All, IfOk, OnOk};
ghost use Rattle.machine_core.specs.Checked.{AreInOrder};
ghost use Rattle.fsm_code.specs.View.{body_view};
ghost use Rattle.fsm_walk.specs.Step.{step_of};
ghost use Rattle.net_core.specs.Places.{Begins};
ghost use Rattle.fmi_min.specs.Moves.{IsMoveOf, AreMovesOf};

use crate::digits::digits;
use bool_expr::Bits;
use fmi_refine::{Move, Row};
use fsm_core::StateMachine;
use fsm_walk::{Step, step_from};
use net_core::Roll;
use std::alloc::{AllocError, Global};
use vlsi_base::Name;

// The steps from a state, one under each of these bits of the ports. Takes memory for them.
pub(crate) fn steps_of(
    alloc: Global,
    machine: &StateMachine,
    outputs: &[Name],
    words: &[Bits],
    state: u32,
) -> Result<Vec<Step>, AllocError>
    requires order { AreInOrder outputs.now }
    requires over { All (λ w. length w ≡ length machine.now.ports) words.now }
    ensures { IfOk result (λ steps. steps.items ≡ map (λ w. step_of machine.now.body outputs.now w state) words.now) }
{
    let body = machine.body();
    let mut steps = Vec::new(alloc);
    for word in words {
        steps.push(step_from(alloc, body, outputs, word.as_slice(), state)?)?;
    }
    Ok(steps)
}

// The move of a step: the number of its outputs is their place among the different ones, behind which they are put where they are new.
// Takes memory for new outputs.
fn move_of(alloc: Global, met: &mut Roll, step: &Step) -> Result<Move, AllocError>
    ensures grown { OnOk result (Begins met.old met.new) }
    ensures made { IfOk result (λ made. IsMoveOf met.new step.now made) }
{
    let text = digits(alloc, step.outs.as_slice())?;
    let outs = met.learn(alloc, &text)?;
    Ok(Move {
        outs,
        next: step.next,
    })
}

// The moves of steps. Takes memory for them and for new outputs.
pub(crate) fn moves_of(alloc: Global, met: &mut Roll, steps: &[Step]) -> Result<Row, AllocError>
    ensures grown { OnOk result (Begins met.old met.new) }
    ensures made { IfOk result (λ row. AreMovesOf met.new steps.now row) }
{
    let mut moves = Vec::with_capacity(alloc, steps.len())?;
    for step in steps {
        moves.push(move_of(alloc, met, step)?)?;
    }
    Ok(Row::new(moves))
}
