// Equations in an order, and the names of bits.
ghost use Rattle.std.specs.Prelude.{◌≡◌, ◌<◌, ◌++◌, map, length, IfOk, OnOk, slice_index};
ghost use Rattle.std.specs.List.{All};
ghost use Rattle.bool_expr.specs.Expression.{IsOver};
ghost use Rattle.bool_expr.specs.View.{view};
ghost use Rattle.machine_core.specs.Order.{In, AllDifferent};
ghost use Rattle.machine_core.specs.View.{equation_view};
ghost use Rattle.source_checks.specs.Symbols.{all_names};
ghost use Rattle.source_bits.specs.Driven.{driven_view};
ghost use Rattle.vlsi_model.specs.Numbered.{name_at, driven_at, equation_from, HasVars};

use bool_expr::renumbered;
use machine_core::Equation;
use source_bits::{DrivenBit, Numbers};
use std::alloc::{AllocError, Global};
use vlsi_base::Name;

/// Puts the names of bits, in an order of their places, behind those that are there.
pub fn push_names(
    alloc: Global,
    numbers: &Numbers,
    bits: &[u32],
    order: &[u32],
    names: &mut Vec<Name>,
) -> Result<(), AllocError>
    requires places { All (λ k. k < length bits.now) order.now }
    requires inside { All (λ b. b < length (all_names numbers.now)) bits.now }
    ensures { OnOk result (names.new.items ≡ names.old.items ++ map (λ k. name_at (all_names numbers.now) (slice_index bits.now k)) order.now) }
{
    for k in order {
        names.push(numbers.name(alloc, bits[*k as usize])?)?;
    }
    Ok(())
}

/// The equation of a bit, over other numbers.
fn equation(
    alloc: Global,
    numbers: &Numbers,
    bit: &DrivenBit,
    table: &[u32],
) -> Result<Equation, AllocError>
    requires inside { bit.now.bit < length (all_names numbers.now) }
    requires over { IsOver (view bit.now.expr) (length table.now) }
    ensures { IfOk result (λ e. equation_view e ≡ equation_from (all_names numbers.now) table.now (driven_view bit.now)) }
{
    let name = numbers.name(alloc, bit.bit)?;
    let expr = renumbered(alloc, &bit.expr, table)?;
    Ok(Equation { name, expr })
}

/// The equations of bits in an order, over other numbers.
pub fn equations(
    alloc: Global,
    numbers: &Numbers,
    driven: &[DrivenBit],
    order: &[u32],
    table: &[u32],
) -> Result<Vec<Equation>, AllocError>
    requires places { All (λ k. k < length driven.now) order.now }
    requires inside { All (λ d. d.bit < length (all_names numbers.now)) driven.now }
    requires over { All (λ d. IsOver (view d.expr) (length table.now)) driven.now }
    ensures { IfOk result (λ made. map equation_view made.items ≡ map
        (λ k. equation_from (all_names numbers.now) table.now (driven_at (map driven_view driven.now) k)) order.now) }
{
    let mut made = Vec::new(alloc);
    for k in order {
        made.push(equation(alloc, numbers, &driven[*k as usize], table)?)?;
    }
    Ok(made)
}

/// The number of each of a machine's names, at its number among all bits.
pub fn var_numbers(alloc: Global, numbers: &Numbers, vars: &[Name]) -> Result<Vec<u32>, AllocError>
    requires texts { AllDifferent (map (λ s. s.text) numbers.now) }
    requires declared { All (λ n. In n (all_names numbers.now)) vars.now }
    requires different { AllDifferent vars.now }
    ensures { IfOk result (λ table. HasVars (all_names numbers.now) vars.now table.items) }
{
    let mut table = vec![in alloc; 0u32; numbers.total() as usize]?;
    for k in 0..vars.len() {
        let name = &vars[k];
        let number = numbers.number(name.text.as_bytes(), name.bit);
        table[number as usize] = k as u32;
    }
    Ok(table)
}
