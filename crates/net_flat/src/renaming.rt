// A machine with other names for its registers.
ghost use Rattle.std.specs.Prelude.{◌≡◌, ◌≤◌, ◌<◌, ◌^◌, ◌+◌, ◌++◌, map, length, is_some, take, IfOk, OnOk};
ghost use Rattle.std.specs.Option.{option_copied};
ghost use Rattle.std.specs.List.{All};
ghost use Rattle.std.specs.List.Sorted.{IsPermutation};
ghost use Rattle.std.specs.FinMap.{get};
ghost use Rattle.vlsi_base.specs.Member.{AllDifferent};
ghost use Rattle.vlsi_base.specs.Range.{rising};
ghost use Rattle.machine_core.specs.Machine.{names_of};
ghost use Rattle.machine_core.specs.Checked.{AreInOrder};
ghost use Rattle.machine_core.specs.View.{equation_view, register_view};
ghost use Rattle.source_bits.specs.Driven.{driven_view, stored_view};
ghost use Rattle.bit_machine.specs.System.{system_of};
ghost use Rattle.net_flat.specs.Renamed.{seat_at, stored_of, driven_from, inner_names, IsLongerThan, AreAllNames, AreRenamed, AreFree, IsRenamed};

use crate::taken::index_of;
use bit_machine::{BitSystem, DrivenBit, StoredBit, machine_of_bits};
use bool_expr::copy;
use machine_core::{Equation, Machine, Register};
use std::alloc::{AllocError, Global};
use vlsi_base::{Name, NameIndex, Names, Port, Ports, Text};

/// A register's new name, and its place among the registers.
#[derive(Drop)]
pub struct Seat {
    pub name: Name,
    pub place: u32,
}

fn seats(alloc: Global, names: &[Name]) -> Result<Vec<Seat>, AllocError>
    requires { length names.now < 2 ^ 32 }
    ensures { IfOk result (λ seats. seats.items ≡ map (seat_at names.now) (rising 0 (length names.now))) }
{
    let mut seats = Vec::new(alloc);
    for k in 0..names.len() {
        let name = names[k].copy(alloc)?;
        let place = k as u32;
        seats.push(Seat { name, place })?;
    }
    Ok(seats)
}

/// The registers in the order of their new names.
fn in_order(seats: Vec<Seat>) -> Result<Vec<Seat>, AllocError>
    requires { AllDifferent (map (λ s. s.name) seats.items) }
    ensures moved { IfOk result (λ sorted. IsPermutation seats.items sorted.items) }
    ensures ordered { IfOk result (λ sorted. AreInOrder (map (λ s. s.name) sorted.items)) }
{
    let mut sorted = seats;
    sorted.sort_by(|a, b| a.name.compare(&b.name))?;
    Ok(sorted)
}

/// What the bit of each register loads, where the first register has this number.
fn stored(
    alloc: Global,
    registers: &[Register],
    seats: &[Seat],
    first: u32,
) -> Result<Vec<StoredBit>, AllocError>
    requires inside { All (λ s. s.place < length registers.now) seats.now }
    requires few { first + length registers.now < 2 ^ 32 }
    ensures { IfOk result (λ made. map stored_view made.items ≡ map (stored_of first (map register_view registers.now)) seats.now) }
{
    let mut made = Vec::new(alloc);
    for seat in seats {
        let register = &registers[seat.place as usize];
        made.push(StoredBit {
            bit: first + seat.place,
            next: copy(alloc, &register.next)?,
            enable: copy(alloc, &register.enable)?,
        })?;
    }
    Ok(made)
}

/// The bits of equations, from a number on.
fn driven(alloc: Global, equations: &[Equation], first: u32) -> Result<Vec<DrivenBit>, AllocError>
    requires { first + length equations.now < 2 ^ 32 }
    ensures { IfOk result (λ made. map driven_view made.items ≡ driven_from first (map equation_view equations.now)) }
{
    let mut made = Vec::new(alloc);
    let mut bit = first;
    for equation in equations {
        let expr = copy(alloc, &equation.expr)?;
        made.push(DrivenBit { bit, expr })?;
        bit += 1;
    }
    Ok(made)
}

fn port_names(alloc: Global, ports: &[Port]) -> Result<Vec<Name>, AllocError>
    ensures { IfOk result (λ names. names.items ≡ names_of ports.now) }
{
    let mut names = Vec::new(alloc);
    for port in ports {
        names.push(port.name.copy(alloc)?)?;
    }
    Ok(names)
}

/// How long the longest of the names' texts is; at least this.
fn longest(names: &[Name], least: usize) -> usize
    ensures each { All (λ n. length n.text ≤ result) names.now }
    ensures least { least ≤ result }
{
    let mut longest = least;
    for name in names {
        let length = name.text.as_bytes().len();
        if longest < length {
            longest = length;
        }
    }
    longest
}

/// A text that is longer than each of these names, and than those of the supplies.
fn own_text(alloc: Global, shown: &[Name], held: &[Name]) -> Result<Text, AllocError>
    ensures shown { IfOk result (λ text. IsLongerThan shown.now text) }
    ensures held { IfOk result (λ text. IsLongerThan held.now text) }
    ensures supplies { IfOk result (λ text. 3 < length text) }
{
    let length = longest(held, longest(shown, 3));
    let mut bytes = vec![in alloc; b'n'; length]?;
    bytes.push(b'n')?;
    Ok(Text::new(bytes))
}

/// Puts copies of names behind those that are there.
fn push_names(alloc: Global, names: &mut Vec<Name>, more: &[Name]) -> Result<(), AllocError>
    ensures { OnOk result (names.new.items ≡ names.old.items ++ more.now) }
{
    for name in more {
        names.push(name.copy(alloc)?)?;
    }
    Ok(())
}

/// Puts the names of equations behind those that are there: those in the index stay, and any other is a text and a number.
fn push_inner<'a>(
    alloc: Global,
    names: &mut Vec<Name>,
    shown: &NameIndex<'a>,
    text: &Text,
    equations: &'a [Equation],
) -> Result<(), AllocError>
    requires { length equations.now < 2 ^ 32 }
    ensures { OnOk result (names.new.items ≡ names.old.items
        ++ inner_names (λ n. is_some (get shown.now n)) text.now 0 (map (λ e. e.name) equations.now)) }
{
    for k in 0..equations.len() {
        let name = &equations[k].name;
        if shown.find(name.text.as_bytes(), name.bit).is_some() {
            names.push(name.copy(alloc)?)?;
        } else {
            names.push(Name {
                text: text.copy(alloc)?,
                bit: Some(k as u32),
            })?;
        }
    }
    Ok(())
}

/// The numbers of the inputs.
fn first_numbers(alloc: Global, count: u32) -> Result<Vec<u32>, AllocError>
    ensures { IfOk result (λ numbers. numbers.items ≡ rising 0 count) }
{
    let mut numbers = Vec::new(alloc);
    for k in 0..count {
        numbers.push(k)?;
    }
    Ok(numbers)
}

/// The names of all bits: of inputs, of registers, and of equations.
fn all_names(
    alloc: Global,
    machine: &Machine,
    inputs: &[Name],
    names: &[Name],
) -> Result<Names, AllocError>
    requires { length machine.now.equations < 2 ^ 32 }
    ensures { IfOk result (λ all. AreAllNames machine.now inputs.now names.now all) }
{
    let shown = port_names(alloc, machine.ports().as_slice())?;
    let text = own_text(alloc, &shown, names)?;
    let index = index_of(alloc, &shown)?;
    let mut all = Vec::new(alloc);
    push_names(alloc, &mut all, inputs)?;
    push_names(alloc, &mut all, names)?;
    push_inner(
        alloc,
        &mut all,
        &index,
        &text,
        machine.equations().as_slice(),
    )?;
    Ok(Names::new(all))
}

/// The bits of the machine, its registers by their new names and in the order of these.
fn renamed_bits(alloc: Global, machine: &Machine, names: &[Name]) -> Result<BitSystem, AllocError>
    requires free { AreFree machine.now names.now }
    requires few { length machine.now.vars < 2 ^ 32 }
    ensures { IfOk result (λ s. AreRenamed machine.now names.now (system_of s)) }
{
    let registers = machine.registers().as_slice();
    let equations = machine.equations().as_slice();
    let vars = machine.vars().as_slice();
    let held = vars.len() - equations.len();
    let first = held - registers.len();
    let seats = in_order(seats(alloc, names)?)?;
    Ok(BitSystem {
        names: all_names(alloc, machine, &vars[..first], names)?,
        inputs: first_numbers(alloc, first as u32)?,
        stored: stored(alloc, registers, &seats, first as u32)?,
        driven: driven(alloc, equations, held as u32)?,
    })
}

fn copied_ports(alloc: Global, ports: &[Port]) -> Result<Ports, AllocError>
    ensures { IfOk result (λ made. made ≡ ports.now) }
{
    let mut made = Vec::new(alloc);
    for port in ports {
        let name = port.name.copy(alloc)?;
        made.push(Port {
            name,
            dir: port.dir,
        })?;
    }
    Ok(Ports::new(made))
}

fn copied_name(alloc: Global, name: Option<&Name>) -> Result<Option<Name>, AllocError>
    ensures { IfOk result (λ made. made ≡ option_copied name.entry) }
{
    match name {
        Some(name) => {
            let name = name.copy(alloc)?;
            Ok(Some(name))
        }
        None => Ok(None),
    }
}

/// The machine with these names for its registers, which stand in the order of names, and with other names for its inner equations.
/// Takes memory for it twice, and time for each operator and, for each register and equation, the logarithm of their number.
pub fn named(alloc: Global, machine: &Machine, names: &[Name]) -> Result<Machine, AllocError>
    requires free { AreFree machine.now names.now }
    requires few { length machine.now.vars < 2 ^ 32 }
    ensures renamed { IfOk result (λ o. IsRenamed machine.now names.now o) }
    ensures numbered { IfOk result (λ o. length o.vars ≤ length machine.now.vars) }
{
    let bits = renamed_bits(alloc, machine, names)?;
    let name = machine.name().copy(alloc)?;
    let ports = copied_ports(alloc, machine.ports().as_slice())?;
    let clock = copied_name(alloc, machine.clock())?;
    let made = machine_of_bits(alloc, name, ports, clock, &bits)?;
    Ok(made)
}
