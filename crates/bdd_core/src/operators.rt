// One recursion for the operators.
ghost use Rattle.bool_expr.specs.Expression.{gate_value};
ghost use Rattle.bdd_core.specs.Decided.{decided_value, IsDecided};
ghost use Rattle.std.specs.Prelude.{◌≡◌, ℕ, Bool, ◌+◌, ◌≤◌, ◌<◌, ◌⊎◌, IfSome, IfOk, IfErr};
ghost use Rattle.std.specs.List.{Contains};
ghost use Rattle.bdd_core.specs.Combined.{operator_value, combined_at, AreFrom, AreKnown, IsPlaceOf, AreCofactors, IsOutcome};

use crate::node::BddError;
use crate::table::Table;
use bool_expr::Gate;
use indexmap::IndexMap;

/// What is made of the functions: a gate of the first two, or a choice of the second and the third by the first.
#[derive(Clone, Copy)]
pub(crate) enum Operator {
    Pair(Gate),
    Choice,
}

/// The places of three functions.
#[derive(Clone, Copy, PartialEq, Eq, Hash)]
pub(crate) struct Triple {
    pub x: usize,
    pub y: usize,
    pub z: usize,
}

fn operator_value(operator: Operator, x: bool, y: bool, z: bool) -> bool
    ensures { result ≡ operator_value operator x y z }
{
    match operator {
        Operator::Pair(gate) => match gate {
            Gate::And => x && y,
            Gate::Or => x || y,
            Gate::Nand => !(x && y),
            Gate::Nor => !(x || y),
            Gate::Xor => x != y,
            Gate::Xnor => x == y,
        },
        Operator::Choice => { if x { y } else { z } }
    }
}

fn recall(memo: &IndexMap<Triple, usize>, key: Triple) -> Option<usize>
    ensures { IfSome result (λ at. Contains memo.now.entries (key, at)) }
{
    memo.get(&key).copied()
}

fn remember(memo: &mut IndexMap<Triple, usize>, key: Triple, at: usize) -> Result<(), BddError>
    ensures kind { IfErr result (λ e. e ≡ BddError.Memory) }
    ensures entries { (k : Triple) (b : ℕ) → Contains memo.new.entries (k, b)
        → Contains memo.old.entries (k, b) ⊎ (k ≡ key) × (b ≡ at) }
{
    match memo.insert(key, at) {
        Ok(_) => Ok(()),
        Err(_) => Err(BddError::Memory),
    }
}

fn least(x: u32, y: u32, z: u32) -> u32
    ensures x { result ≤ x }
    ensures y { result ≤ y }
    ensures z { result ≤ z }
    ensures one { (result ≡ x) ⊎ (result ≡ y) ⊎ (result ≡ z) }
{
    if x <= y && x <= z {
        x
    } else if y <= z {
        y
    } else {
        z
    }
}

/// The places of the two halves of each of three functions.
fn cofactors(table: &Table, key: Triple, variable: u32) -> (Triple, Triple)
    requires key { AreFrom table.now.vars table.now.lists variable key }
    requires variable { variable < table.now.vars }
    ensures { AreCofactors table.now.vars table.now.lists variable key result.0 result.1 }
{
    let (x0, x1) = table.halves(key.x, variable);
    let (y0, y1) = table.halves(key.y, variable);
    let (z0, z1) = table.halves(key.z, variable);
    let low = Triple {
        x: x0,
        y: y0,
        z: z0,
    };
    let high = Triple {
        x: x1,
        y: y1,
        z: z1,
    };
    (low, high)
}

/// What the operator gives at three constants.
fn settled(table: &Table, operator: Operator, key: Triple, from: u32) -> usize
    requires from { from ≤ table.now.vars }
    requires key { AreFrom table.now.vars table.now.lists table.now.vars key }
    ensures { IsPlaceOf table.now.vars table.now.lists from
        (combined_at operator table.now.vars table.now.lists from key) result }
{
    let bit = operator_value(
        operator,
        table.bit(key.x),
        table.bit(key.y),
        table.bit(key.z),
    );
    table.constant(bit)
}

/// What an operator gives where that follows of functions that are constant: a constant, or one of the three functions.
#[derive(Clone, Copy)]
pub(crate) enum Decided {
    Constant(bool),
    First,
    Second,
    Third,
}

/// What a gate gives where one of its functions is this constant: a constant, or the other function.
fn decided_by(gate: Gate, bit: bool, other: Decided) -> Option<Decided>
    ensures { IfSome result (λ d. (a b c x : Bool) → x ≡ decided_value other a b c
        → (gate_value gate bit x ≡ decided_value d a b c) × (gate_value gate x bit ≡ decided_value d a b c)) }
{
    match (gate, bit) {
        (Gate::And, false) | (Gate::Nor, true) => Some(Decided::Constant(false)),
        (Gate::Or, true) | (Gate::Nand, false) => Some(Decided::Constant(true)),
        (Gate::And, true) | (Gate::Or, false) | (Gate::Xor, false) | (Gate::Xnor, true) => Some(
            other,
        ),
        _ => None,
    }
}

/// What an operator gives, where that follows of the values that are known.
fn decide(operator: Operator, x: Option<bool>, y: Option<bool>, z: Option<bool>) -> Option<Decided>
    ensures { IfSome result (IsDecided operator x y z) }
{
    match (operator, x, y, z) {
        (Operator::Pair(gate), Some(bit), _, _) => decided_by(gate, bit, Decided::Second),
        (Operator::Pair(gate), None, Some(bit), _) => decided_by(gate, bit, Decided::First),
        (Operator::Pair(_), None, None, _) => None,
        (Operator::Choice, Some(true), _, _) => Some(Decided::Second),
        (Operator::Choice, Some(false), _, _) => Some(Decided::Third),
        (Operator::Choice, None, Some(true), Some(false)) => Some(Decided::First),
        (Operator::Choice, None, _, _) => None,
    }
}

/// The place of what the operator gives, where that follows of functions that are constant.
fn shortcut(table: &Table, operator: Operator, key: Triple, from: u32) -> Option<usize>
    requires { AreFrom table.now.vars table.now.lists from key }
    ensures { IfSome result (λ at. IsPlaceOf table.now.vars table.now.lists from
        (combined_at operator table.now.vars table.now.lists from key) at) }
{
    let x = table.known(key.x);
    let y = table.known(key.y);
    let z = table.known(key.z);
    match decide(operator, x, y, z)? {
        Decided::Constant(bit) => Some(table.constant(bit)),
        Decided::First => Some(key.x),
        Decided::Second => Some(key.y),
        Decided::Third => Some(key.z),
    }
}

/// The node of what the operator gives. Each answer is kept, so that none is sought twice.
pub(crate) fn combine(
    table: &mut Table,
    memo: &mut IndexMap<Triple, usize>,
    operator: Operator,
    key: Triple,
    from: u32,
) -> Result<usize, BddError>
    requires key { AreFrom table.old.vars table.old.lists from key }
    requires known { AreKnown operator table.old memo.old.entries }
    ensures vars { table.new.vars ≡ table.old.vars }
    ensures budget { table.new.budget ≡ table.old.budget }
    ensures known { AreKnown operator table.new memo.new.entries }
    ensures outcome { IsOutcome table.old.vars table.old.budget table.old.lists table.new.lists from
        (combined_at operator table.old.vars table.old.lists from key) result }
{
    let variable = least(
        table.variable(key.x),
        table.variable(key.y),
        table.variable(key.z),
    );
    if variable >= table.vars() {
        return Ok(settled(table, operator, key, from));
    }
    if let Some(at) = shortcut(table, operator, key, from) {
        return Ok(at);
    }
    if let Some(at) = recall(memo, key) {
        return Ok(at);
    }
    let (below_low, below_high) = cofactors(table, key, variable);
    let low = combine(table, memo, operator, below_low, variable + 1)?;
    let high = combine(table, memo, operator, below_high, variable + 1)?;
    let at = table.make(variable, low, high)?;
    remember(memo, key, at)?;
    Ok(at)
}
