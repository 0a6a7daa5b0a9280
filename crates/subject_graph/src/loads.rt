// The numbers of what registers load.
ghost use Rattle.std.specs.Prelude.{[], ◌≡◌, ◌-◌, ◌<◌, ◌≤◌, ◌↔◌, true, length, map, IsTrue, IfOk};
ghost use Rattle.bool_expr.specs.Expression.{constant};
ghost use Rattle.bool_expr.specs.View.{view};
ghost use Rattle.machine_core.specs.View.{register_view};
ghost use Rattle.subject_table.specs.View.{end_of};
ghost use Rattle.subject_table.specs.Grows.{IsSound, HasRoom, AreBelow, Adds};
ghost use Rattle.subject_graph.specs.Stages.{LoadsOver, EachLoadsOver, Loads, load_value, load_size, load_weight};
ghost use Rattle.subject_table.specs.Rules.{IsLoad, Load};
ghost use Rattle.subject_table.specs.Makes.{Makes};

use bool_expr::Expr;
use machine_core::Register;
use std::alloc::{AllocError, Global};
use subject_table::Table;

/// Whether an expression is the constant 1.
fn is_one(e: &Expr) -> bool
    ensures { IsTrue result ↔ (view e.now ≡ constant true) }
{
    match e {
        Expr::Const(bit) => *bit,
        _ => false,
    }
}

/// The number of what a register loads: its next bit where it always loads, else that or its own bit, by its enable.
fn load_number(
    table: &mut Table,
    register: &Register,
    numbers: &[u32],
    own: u32,
) -> Result<u32, AllocError>
    requires sound { IsSound table.now }
    requires known { AreBelow (end_of table.now) numbers.now }
    requires own { own < end_of table.now }
    requires over { LoadsOver (length numbers.now) (register_view register.now) }
    requires room { HasRoom table.now (load_size (register_view register.now)) }
    ensures value { IfOk result (λ r. Adds table.old table.new (load_size (register_view register.now))
        (λ v. load_value (register_view register.now) (map v numbers.now) (v own)) r) }
    ensures made { IfOk result (λ r. Makes table.old table.new (IsLoad (register_view register.now) numbers.now own) r) }
{
    if is_one(&register.enable) {
        return table.expr(&register.next, numbers);
    }
    let enable = table.expr(&register.enable, numbers)?;
    let next = table.expr(&register.next, numbers)?;
    table.choice(enable, next, own)
}

/// The number of what each register loads, in the order of registers, whose own numbers are the last that are held. Takes
/// memory for them and for nodes.
pub(crate) fn load_numbers(
    alloc: Global,
    table: &mut Table,
    registers: &[Register],
    numbers: &[u32],
) -> Result<Vec<u32>, AllocError>
    requires sound { IsSound table.now }
    requires known { AreBelow (end_of table.now) numbers.now }
    requires held { length registers.now ≤ table.now.held }
    requires over { EachLoadsOver (length numbers.now) (map register_view registers.now) }
    requires room { HasRoom table.now (load_weight (map register_view registers.now)) }
    ensures value { IfOk result (λ v. Loads table.old table.new numbers.now (table.old.held - length registers.now)
        (map register_view registers.now) v.items) }
    ensures made { IfOk result (λ v. Makes table.old table.new
        (Load (map register_view registers.now) numbers.now (table.old.held - length registers.now) []) v.items) }
{
    let first = table.held - registers.len() as u32;
    let mut loads = Vec::new(alloc);
    for (k, register) in registers.iter().enumerate() {
        let number = load_number(table, register, numbers, first + k as u32)?;
        loads.push(number)?;
    }
    Ok(loads)
}
