// The choices that a diagram's nodes are.
ghost use Rattle.std.specs.Prelude.{◌≡◌, ◌+◌, ◌<◌, ◌++◌, ◌∷◌, [], length, IfSome, IfNone, IfErr, OnOk};
ghost use Rattle.std.specs.List.{Contains};
ghost use Rattle.bdd_core.specs.Diagram.{IsNode};
ghost use Rattle.boom_muxes.specs.Muxes.{IsTable, IsLiteralBelow};
ghost use Rattle.boom_muxes.specs.Rebuilding.{IsUsable, AreSaid, IsFound, IsChosen};

use crate::mux::Mux;
use crate::muxes::{Muxes, Stop};
use bdd_core::NodeId;
use boom_literal::Literal;
use indexmap::IndexMap;
use machine_roots::RootDiagram;

// What was found for a node.
fn recall(known: &IndexMap<NodeId, Literal>, at: NodeId) -> Option<Literal>
    ensures found { IfSome result (λ l. Contains known.now.entries (at, l)) }
    ensures absent { IfNone result ((l : Literal) → Contains known.now.entries (at, l) → ⊥) }
{
    known.get(&at).copied()
}

// Keeps what was found for a further node.
fn remember(known: &mut IndexMap<NodeId, Literal>, at: NodeId, literal: Literal) -> Result<(), Stop>
    requires { (l : Literal) → Contains known.old.entries (at, l) → ⊥ }
    ensures entries { OnOk result (known.new.entries ≡ known.old.entries ++ (at, literal) ∷ []) }
    ensures memory { IfErr result (λ e. e ≡ Stop.Memory) }
{
    match known.insert(at, literal) {
        Ok(_) => Ok(()),
        Err(_) => Err(Stop::Memory),
    }
}

// Puts the choice that a further node is into the table, and keeps its literal.
fn choose(
    muxes: &mut Muxes,
    known: &mut IndexMap<NodeId, Literal>,
    at: NodeId,
    mux: Mux,
) -> Result<Literal, Stop>
    requires table { IsTable muxes.old }
    requires select { mux.select < muxes.old.held }
    requires low { IsLiteralBelow (muxes.old.held + length muxes.old.nodes.keys) mux.low }
    requires high { IsLiteralBelow (muxes.old.held + length muxes.old.nodes.keys) mux.high }
    requires absent { (l : Literal) → Contains known.old.entries (at, l) → ⊥ }
    ensures { IsChosen at mux muxes.old muxes.new known.old.entries known.new.entries result }
{
    let literal = muxes.add(mux)?;
    remember(known, at, literal)?;
    Ok(literal)
}

/// The literal of a diagram's node: a constant, an input or register, or a choice, which is put into the table with those below it.
/// What is found for a node is kept, so that none is sought twice: there are at most as many new choices as nodes at which
/// something was found. `Large` where the table would weigh as much as was given.
pub fn literal_of(
    muxes: &mut Muxes,
    diagram: &RootDiagram,
    known: &mut IndexMap<NodeId, Literal>,
    at: NodeId,
) -> Result<Literal, Stop>
    requires table { IsTable muxes.old }
    requires diagram { IsUsable muxes.old diagram.now }
    requires node { IsNode diagram.now.diagrams at }
    requires known { AreSaid muxes.old diagram.now known.old.entries }
    ensures { IsFound diagram.now at muxes.old muxes.new known.old.entries known.new.entries result }
{
    let Some(branch) = diagram.diagrams.branch(at) else {
        let is_zero = diagram.diagrams.same(at, diagram.zero);
        return Ok(Literal::Constant(!is_zero));
    };
    if let Some(literal) = recall(known, at) {
        return Ok(literal);
    }
    let low = literal_of(muxes, diagram, known, branch.low)?;
    let high = literal_of(muxes, diagram, known, branch.high)?;
    let select = diagram.order[branch.variable as usize];
    choose(muxes, known, at, Mux { select, low, high })
}
