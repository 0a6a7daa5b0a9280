// Names that have a role in one of two machines alone.
ghost use Rattle.std.specs.Prelude.{◌≡◌, ◌↔◌, ◌<◌, [], ◌∷◌, ◌++◌, List, length, map, filter, IsTrue, IfOk, IfSome, IfNone, option_to_list};
ghost use Rattle.std.specs.Option.{option_copied};
ghost use Rattle.machine_core.specs.Machine.{names_of};
ghost use Rattle.machine_core.specs.Checked.{AreInOrder, IsChecked};
ghost use Rattle.proof_joint.specs.Naming.{names_with, AgreeByName, IsLeastOneSided};
ghost use Rattle.proof_joint.specs.declared.naming.Role.{Role as RoleValue};
ghost use Rattle.proof_joint.specs.Apart.{has_direction, lesser_of, picked, IsLeastApart, IsLeastIn};

use machine_core::{Machine, Register};
use std::alloc::{AllocError, Global};
use vlsi_base::{Dir, Name, Port};

/// What a name is in a machine.
#[derive(Clone, Copy)]
pub enum Role {
    /// An input port, also the clock.
    Input,
    Output,
    Clock,
    Register,
}

// The names of the ports of a direction.
fn port_names(alloc: Global, ports: &[Port], dir: Dir) -> Result<Vec<&Name>, AllocError>
    ensures { IfOk result (λ v. map (λ n. n.now) v.items ≡ names_of (filter (has_direction dir) ports.now)) }
{
    let mut names = Vec::new(alloc);
    for port in ports {
        if port.dir == dir {
            names.push(&port.name)?;
        }
    }
    Ok(names)
}

fn register_names(alloc: Global, registers: &[Register]) -> Result<Vec<&Name>, AllocError>
    ensures { IfOk result (λ v. map (λ n. n.now) v.items ≡ map (λ r. r.name) registers.now) }
{
    let mut names = Vec::new(alloc);
    for register in registers {
        names.push(&register.name)?;
    }
    Ok(names)
}

fn clock_names(alloc: Global, clock: Option<&Name>) -> Result<Vec<&Name>, AllocError>
    ensures { IfOk result (λ v. map (λ n. n.now) v.items ≡ option_to_list (option_copied clock.entry)) }
{
    let mut names = Vec::new(alloc);
    if let Some(name) = clock {
        names.push(name)?;
    }
    Ok(names)
}

// The names that have a role in a machine, in their order. Takes memory for the list of them.
pub(crate) fn names_with(alloc: Global, m: &Machine, role: Role) -> Result<Vec<&Name>, AllocError>
    ensures names { IfOk result (λ v. map (λ n. n.now) v.items ≡ names_with m.now role) }
    ensures ordered { AreInOrder (names_with m.now role) }
{
    match role {
        Role::Input => port_names(alloc, m.ports().as_slice(), Dir::In),
        Role::Output => port_names(alloc, m.ports().as_slice(), Dir::Out),
        Role::Clock => clock_names(alloc, m.clock()),
        Role::Register => register_names(alloc, m.registers().as_slice()),
    }
}

// The lesser one of two names.
fn lesser<'a>(a: &'a Name, b: &'a Name) -> &'a Name
    ensures { result.now ≡ lesser_of a.entry.now b.entry.now }
{
    if a.compare(b).is_lt() { a } else { b }
}

// The lesser one of two names of which there may be none.
fn lesser_or<'a>(a: Option<&'a Name>, b: Option<&'a Name>) -> Option<&'a Name>
    ensures { option_copied result ≡ picked (option_copied a.entry) (option_copied b.entry) }
{
    match (a, b) {
        (Some(one), Some(other)) => Some(lesser(one, other)),
        (Some(one), None) => Some(one),
        (None, other) => other,
    }
}

// The least name that stands in one of the lists alone, where each is in the order of names.
fn least_apart<'a>(xs: &[&'a Name], ys: &[&'a Name]) -> Option<&'a Name>
    requires xs { AreInOrder (map (λ n. n.now) xs.now) }
    requires ys { AreInOrder (map (λ n. n.now) ys.now) }
    ensures none { IfNone result (map (λ n. n.now) xs.now ≡ map (λ n. n.now) ys.now) }
    ensures some { IfSome result (λ n. IsLeastApart (map (λ n. n.now) xs.now) (map (λ n. n.now) ys.now) n.now) }
{
    for (k, x) in xs.iter().enumerate() {
        if k == ys.len() {
            return Some(*x);
        }
        let y = ys[k];
        if !x.is_same(y) {
            return Some(lesser(x, y));
        }
    }
    if xs.len() < ys.len() {
        return Some(ys[xs.len()]);
    }
    None
}

// The lesser one of the name that is lent and the least name that has this role in one of the machines alone. Takes memory for the
// names that have the role.
fn lesser_with<'a>(
    alloc: Global,
    a: &'a Machine,
    b: &'a Machine,
    role: Role,
    least: Option<&'a Name>,
) -> Result<Option<&'a Name>, AllocError>
    ensures { IfOk result (λ o. (roles : List RoleValue) → IsLeastIn a.entry.now b.entry.now roles (option_copied least.entry)
        → IsLeastIn a.entry.now b.entry.now (role ∷ roles) (option_copied o)) }
{
    let firsts = names_with(alloc, a, role)?;
    let seconds = names_with(alloc, b, role)?;
    let apart = least_apart(&firsts, &seconds);
    Ok(lesser_or(least, apart))
}

// Whether a machine has a register.
fn has_registers(m: &Machine) -> bool
    ensures { IsTrue result ↔ 0 < length m.now.registers }
{
    !m.registers().as_slice().is_empty()
}

// Whether both machines have registers.
fn have_registers(a: &Machine, b: &Machine) -> bool
    ensures { IsTrue result ↔ ((0 < length a.now.registers) × (0 < length b.now.registers)) }
{
    has_registers(a) && has_registers(b)
}

/// The least name that is an input, an output or a register of one of the machines alone, or where both have registers the clock of
/// one alone; `None` exactly where all these names are the same in both. Takes memory for the names that have a role.
pub fn least_one_sided<'a>(
    alloc: Global,
    a: &'a Machine,
    b: &'a Machine,
) -> Result<Option<&'a Name>, AllocError>
    ensures none { IfOk result (λ o. IfNone o (AgreeByName a.entry.now b.entry.now)) }
    ensures some { IfOk result (λ o. IfSome o (λ n. IsLeastOneSided a.entry.now b.entry.now n.now)) }
{
    let least = lesser_with(alloc, a, b, Role::Input, None)?;
    let least = lesser_with(alloc, a, b, Role::Output, least)?;
    let least = lesser_with(alloc, a, b, Role::Register, least)?;
    if have_registers(a, b) {
        return lesser_with(alloc, a, b, Role::Clock, least);
    }
    Ok(least)
}
