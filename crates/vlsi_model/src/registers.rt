// Registers in the order of names.
ghost use Rattle.std.specs.Prelude.{◌≡◌, ◌<◌, ◌^◌, map, length, IfOk, slice_index};
ghost use Rattle.std.specs.List.{All};
ghost use Rattle.std.specs.List.Sorted.{IsPermutation};
ghost use Rattle.bool_expr.specs.Expression.{IsOver};
ghost use Rattle.bool_expr.specs.View.{view};
ghost use Rattle.machine_core.specs.Checked.{AreInOrder};
ghost use Rattle.machine_core.specs.Order.{AllDifferent};
ghost use Rattle.machine_core.specs.View.{register_view};
ghost use Rattle.vlsi_base.specs.Range.{rising};
ghost use Rattle.source_checks.specs.Symbols.{all_names};
ghost use Rattle.source_bits.specs.Driven.{stored_view};
ghost use Rattle.vlsi_model.specs.Numbered.{name_at, named_at, stored_at, register_from};

use bool_expr::renumbered;
use machine_core::Register;
use source_bits::{Numbers, StoredBit};
use std::alloc::{AllocError, Global};
use vlsi_base::Name;

/// A bit by its name, and its place among some.
#[derive(Drop)]
pub struct NamedBit {
    pub name: Name,
    pub place: u32,
}

/// The bits with their names and places.
fn named_bits(alloc: Global, numbers: &Numbers, bits: &[u32]) -> Result<Vec<NamedBit>, AllocError>
    requires inside { All (λ b. b < length (all_names numbers.now)) bits.now }
    requires few { length bits.now < 2 ^ 32 }
    ensures { IfOk result (λ named. named.items ≡ map (named_at (all_names numbers.now) bits.now) (rising 0 (length bits.now))) }
{
    let mut named = Vec::new(alloc);
    for k in 0..bits.len() {
        let name = numbers.name(alloc, bits[k])?;
        let place = k as u32;
        named.push(NamedBit { name, place })?;
    }
    Ok(named)
}

/// The bits in the order of names.
fn sorted_bits(bits: Vec<NamedBit>) -> Result<Vec<NamedBit>, AllocError>
    requires { AllDifferent (map (λ b. b.name) bits.items) }
    ensures moved { IfOk result (λ sorted. IsPermutation bits.items sorted.items) }
    ensures ordered { IfOk result (λ sorted. AreInOrder (map (λ b. b.name) sorted.items)) }
{
    let mut sorted = bits;
    sorted.sort_by(|a, b| a.name.compare(&b.name))?;
    Ok(sorted)
}

/// The places of bits.
fn places(alloc: Global, bits: &[NamedBit]) -> Result<Vec<u32>, AllocError>
    ensures { IfOk result (λ places. places.items ≡ map (λ b. b.place) bits.now) }
{
    let mut places = Vec::new(alloc);
    for bit in bits {
        places.push(bit.place)?;
    }
    Ok(places)
}

/// The places of bits in the order of their names.
pub fn name_order(alloc: Global, numbers: &Numbers, bits: &[u32]) -> Result<Vec<u32>, AllocError>
    requires inside { All (λ b. b < length (all_names numbers.now)) bits.now }
    requires few { length bits.now < 2 ^ 32 }
    requires different { AllDifferent (map (name_at (all_names numbers.now)) bits.now) }
    ensures moved { IfOk result (λ order. IsPermutation (rising 0 (length bits.now)) order.items) }
    ensures ordered { IfOk result (λ order. AreInOrder (map (λ k. name_at (all_names numbers.now) (slice_index bits.now k)) order.items)) }
{
    let named = named_bits(alloc, numbers, bits)?;
    let sorted = sorted_bits(named)?;
    let order = places(alloc, &sorted)?;
    Ok(order)
}

/// The register of a bit, over other numbers.
fn register(
    alloc: Global,
    numbers: &Numbers,
    bit: &StoredBit,
    table: &[u32],
) -> Result<Register, AllocError>
    requires inside { bit.now.bit < length (all_names numbers.now) }
    requires next { IsOver (view bit.now.next) (length table.now) }
    requires enable { IsOver (view bit.now.enable) (length table.now) }
    ensures { IfOk result (λ r. register_view r ≡ register_from (all_names numbers.now) table.now (stored_view bit.now)) }
{
    let name = numbers.name(alloc, bit.bit)?;
    let next = renumbered(alloc, &bit.next, table)?;
    let enable = renumbered(alloc, &bit.enable, table)?;
    Ok(Register { name, next, enable })
}

/// The registers of bits in an order, over other numbers.
pub fn registers(
    alloc: Global,
    numbers: &Numbers,
    stored: &[StoredBit],
    order: &[u32],
    table: &[u32],
) -> Result<Vec<Register>, AllocError>
    requires places { All (λ k. k < length stored.now) order.now }
    requires inside { All (λ s. s.bit < length (all_names numbers.now)) stored.now }
    requires next { All (λ s. IsOver (view s.next) (length table.now)) stored.now }
    requires enable { All (λ s. IsOver (view s.enable) (length table.now)) stored.now }
    ensures { IfOk result (λ made. map register_view made.items ≡ map
        (λ k. register_from (all_names numbers.now) table.now (stored_at (map stored_view stored.now) k)) order.now) }
{
    let mut made = Vec::new(alloc);
    for k in order {
        made.push(register(alloc, numbers, &stored[*k as usize], table)?)?;
    }
    Ok(made)
}
