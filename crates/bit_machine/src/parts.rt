// The names, equations and registers of a machine over numbered bits.
ghost use Rattle.std.specs.Prelude.{◌≡◌, ◌<◌, ◌++◌, map, length, IfOk, OnOk};
ghost use Rattle.std.specs.List.{All};
ghost use Rattle.bool_expr.specs.Expression.{IsOver};
ghost use Rattle.bool_expr.specs.View.{view};
ghost use Rattle.machine_core.specs.View.{equation_view, register_view};
ghost use Rattle.source_bits.specs.Driven.{driven_view, stored_view};
ghost use Rattle.vlsi_model.specs.Numbered.{name_at, driven_at, equation_from, register_from};

use bool_expr::renumbered;
use machine_core::{Equation, Register};
use source_bits::{DrivenBit, StoredBit};
use std::alloc::{AllocError, Global};
use vlsi_base::Name;

/// The names of bits.
pub fn names_of(alloc: Global, names: &[Name], bits: &[u32]) -> Result<Vec<Name>, AllocError>
    requires { All (λ b. b < length names.now) bits.now }
    ensures { IfOk result (λ made. made.items ≡ map (name_at names.now) bits.now) }
{
    let mut made = Vec::new(alloc);
    for bit in bits {
        made.push(names[*bit as usize].copy(alloc)?)?;
    }
    Ok(made)
}

/// Puts the numbers of stored bits behind those that are there.
pub fn push_stored(bits: &mut Vec<u32>, stored: &[StoredBit]) -> Result<(), AllocError>
    ensures { OnOk result (bits.new.items ≡ bits.old.items ++ map (λ s. s.bit) stored.now) }
{
    for s in stored {
        bits.push(s.bit)?;
    }
    Ok(())
}

/// Puts the numbers of driven bits, in an order of their places, behind those that are there.
pub fn push_driven(
    bits: &mut Vec<u32>,
    driven: &[DrivenBit],
    order: &[u32],
) -> Result<(), AllocError>
    requires { All (λ k. k < length driven.now) order.now }
    ensures { OnOk result (bits.new.items ≡ bits.old.items ++ map (λ k. (driven_at (map driven_view driven.now) k).bit) order.now) }
{
    for k in order {
        bits.push(driven[*k as usize].bit)?;
    }
    Ok(())
}

/// The equation of a bit, over other numbers.
fn equation(
    alloc: Global,
    names: &[Name],
    bit: &DrivenBit,
    table: &[u32],
) -> Result<Equation, AllocError>
    requires inside { bit.now.bit < length names.now }
    requires over { IsOver (view bit.now.expr) (length table.now) }
    ensures { IfOk result (λ e. equation_view e ≡ equation_from names.now table.now (driven_view bit.now)) }
{
    let name = names[bit.bit as usize].copy(alloc)?;
    let expr = renumbered(alloc, &bit.expr, table)?;
    Ok(Equation { name, expr })
}

/// The equations of bits in an order, over other numbers.
pub fn equations(
    alloc: Global,
    names: &[Name],
    driven: &[DrivenBit],
    order: &[u32],
    table: &[u32],
) -> Result<Vec<Equation>, AllocError>
    requires places { All (λ k. k < length driven.now) order.now }
    requires inside { All (λ d. d.bit < length names.now) driven.now }
    requires over { All (λ d. IsOver (view d.expr) (length table.now)) driven.now }
    ensures { IfOk result (λ made. map equation_view made.items ≡ map
        (λ k. equation_from names.now table.now (driven_at (map driven_view driven.now) k)) order.now) }
{
    let mut made = Vec::new(alloc);
    for k in order {
        made.push(equation(alloc, names, &driven[*k as usize], table)?)?;
    }
    Ok(made)
}

/// The register of a bit, over other numbers.
fn register(
    alloc: Global,
    names: &[Name],
    bit: &StoredBit,
    table: &[u32],
) -> Result<Register, AllocError>
    requires inside { bit.now.bit < length names.now }
    requires next { IsOver (view bit.now.next) (length table.now) }
    requires enable { IsOver (view bit.now.enable) (length table.now) }
    ensures { IfOk result (λ r. register_view r ≡ register_from names.now table.now (stored_view bit.now)) }
{
    let name = names[bit.bit as usize].copy(alloc)?;
    let next = renumbered(alloc, &bit.next, table)?;
    let enable = renumbered(alloc, &bit.enable, table)?;
    Ok(Register { name, next, enable })
}

/// The registers of bits, over other numbers.
pub fn registers(
    alloc: Global,
    names: &[Name],
    stored: &[StoredBit],
    table: &[u32],
) -> Result<Vec<Register>, AllocError>
    requires inside { All (λ s. s.bit < length names.now) stored.now }
    requires next { All (λ s. IsOver (view s.next) (length table.now)) stored.now }
    requires enable { All (λ s. IsOver (view s.enable) (length table.now)) stored.now }
    ensures { IfOk result (λ made. map register_view made.items ≡ map
        (λ s. register_from names.now table.now (stored_view s)) stored.now) }
{
    let mut made = Vec::new(alloc);
    for s in stored {
        made.push(register(alloc, names, s, table)?)?;
    }
    Ok(made)
}
