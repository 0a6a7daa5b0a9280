// Bits on which a function of three variables is 1, worked out by hand.
ghost use Rattle.std.specs.Prelude.{◌≡◌, ◌<◌, IfOk, IfSome, length};
ghost use Rattle.bdd_core.specs.Diagram.{Keeps, IsNode};

use bdd_core::{BddError, Diagrams, NodeId};
use bool_expr::Gate;
use std::alloc::Global;
use std::test::Fail;

const VARIABLES: u32 = 3;

/// The node of a variable, or of its inverse.
fn literal(diagrams: &mut Diagrams, k: u32, is_plain: bool) -> Result<NodeId, BddError>
    requires { k < diagrams.old.table.vars }
    ensures vars { diagrams.new.table.vars ≡ diagrams.old.table.vars }
    ensures keeps { Keeps diagrams.old diagrams.new }
    ensures node { IfOk result (λ a. IsNode diagrams.new a) }
{
    let a = diagrams.variable(k)?;
    if is_plain {
        Ok(a)
    } else {
        diagrams.apply(Gate::Nand, a, a)
    }
}

fn picked(diagrams: &Diagrams, a: NodeId) -> Result<Option<Vec<bool>>, BddError>
    requires { IsNode diagrams.now a }
    ensures { IfOk result (λ o. IfSome o (λ bits. length bits.items ≡ diagrams.now.table.vars)) }
{
    match diagrams.pick_true(a) {
        Ok(bits) => Ok(bits),
        Err(_) => Err(BddError::Memory),
    }
}

/// Bits on which the function is 1 that is 1 on these alone.
fn picked_of_row(alloc: Global, row: [bool; 3]) -> Result<Option<Vec<bool>>, BddError> {
    let mut diagrams = Diagrams::begin(alloc, VARIABLES, 100);
    let a = literal(&mut diagrams, 0, row[0])?;
    let b = literal(&mut diagrams, 1, row[1])?;
    let both = diagrams.apply(Gate::And, a, b)?;
    let c = literal(&mut diagrams, 2, row[2])?;
    let all = diagrams.apply(Gate::And, both, c)?;
    picked(&diagrams, all)
}

#[test]
fn the_bits_of_one_row(rt: HostRuntime) -> Result<(), Fail> {
    for number in 0..8u8 {
        let row = [number % 2 == 1, number / 2 % 2 == 1, number / 4 % 2 == 1];
        match picked_of_row(rt.alloc(), row) {
            Ok(Some(bits)) => assert_eq!(rt; bits.as_slice(), row.as_slice()),
            _ => assert!(rt; false, "no bits of row {number}"),
        }
    }
    Ok(())
}

/// Bits on which a gate of the last two variables is 1.
fn picked_of_gate(alloc: Global, gate: Gate) -> Result<Option<Vec<bool>>, BddError>
    ensures { IfOk result (λ o. IfSome o (λ bits. length bits.items ≡ 3)) }
{
    let mut diagrams = Diagrams::begin(alloc, VARIABLES, 100);
    let a = literal(&mut diagrams, 1, true)?;
    let b = literal(&mut diagrams, 2, true)?;
    let made = diagrams.apply(gate, a, b)?;
    picked(&diagrams, made)
}

/// Gates, each with its values where both variables are 0, the first alone is 1, the second alone, and both.
static GATES: [(Gate, [bool; 4]); 6] = [
    (Gate::And, [false, false, false, true]),
    (Gate::Or, [false, true, true, true]),
    (Gate::Nand, [true, true, true, false]),
    (Gate::Nor, [true, false, false, false]),
    (Gate::Xor, [false, true, true, false]),
    (Gate::Xnor, [true, false, false, true]),
];

#[test]
fn bits_among_several(rt: HostRuntime) -> Result<(), Fail> {
    for (gate, values) in &GATES {
        match picked_of_gate(rt.alloc(), *gate) {
            Ok(Some(bits)) => {
                let row = usize::from(bits[1]) + 2 * usize::from(bits[2]);
                assert!(rt; values[row], "row {row} is picked");
            }
            _ => assert!(rt; false, "no bits"),
        }
    }
    Ok(())
}

/// Bits on which a variable is 1 and is 0.
fn picked_of_none(alloc: Global) -> Result<Option<Vec<bool>>, BddError> {
    let mut diagrams = Diagrams::begin(alloc, VARIABLES, 100);
    let a = literal(&mut diagrams, 1, true)?;
    let b = literal(&mut diagrams, 1, false)?;
    let both = diagrams.apply(Gate::And, a, b)?;
    picked(&diagrams, both)
}

#[test]
fn no_bits_where_a_function_is_never_1(rt: HostRuntime) {
    assert!(rt; matches!(picked_of_none(rt.alloc()), Ok(None)));
}
