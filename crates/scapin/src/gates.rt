// The gates of a scan path, by numbers for classes.
ghost use Rattle.std.specs.Prelude.{◌≡◌, ◌+◌, ◌*◌, ◌<◌, ◌^◌, ◌++◌, [], length, nat_eq, slice_index_or, IfOk, OnOk, if◌then◌else◌};
ghost use Rattle.scapin.specs.Gates.{number_of, reads_of, shown_by, multiplexer_of, end_of, first_of, gate_list};

use scan_checks::Register;
use std::alloc::{AllocError, Global};

/// A gate by its number: an inverter or a nand of two inputs, with the classes that it reads. It shows a class of its own.
#[derive(Clone, Copy)]
pub(crate) enum Gate {
    Inverts {
        number: usize,
        input: usize,
    },
    Nands {
        number: usize,
        first: usize,
        second: usize,
    },
}

impl Gate {
    /// Its number.
    pub(crate) fn number(self) -> usize
        ensures { result ≡ number_of self }
    {
        match self {
            Gate::Inverts { number, .. } => number,
            Gate::Nands { number, .. } => number,
        }
    }

    /// The class that it reads at this place of its inputs; past their end another one.
    pub(crate) fn read(self, place: usize, other: usize) -> usize
        ensures { result ≡ slice_index_or (reads_of self) place other }
    {
        match self {
            Gate::Inverts { input, .. } => { if place == 0 { input } else { other } }
            Gate::Nands { first, second, .. } => {
                if place == 0 {
                    first
                } else if place == 1 {
                    second
                } else {
                    other
                }
            }
        }
    }
}

/// The class that the gate with a number shows, where the given netlist has so many classes.
pub(crate) fn shown(count: usize, number: usize) -> usize
    requires count { count < 2 ^ 32 }
    requires number { number < 2 ^ 40 }
    ensures { result ≡ shown_by count number }
{
    count + 4 + number
}

// Puts the multiplexer before a register of the path behind the others.
fn push_multiplexer(
    gates: &mut Vec<Gate>,
    count: usize,
    place: usize,
    before: usize,
    loads: usize,
) -> Result<(), AllocError>
    requires count { count < 2 ^ 32 }
    requires place { place < 2 ^ 32 }
    ensures { OnOk result (gates.new.items ≡ gates.old.items ++ multiplexer_of count place before loads) }
{
    let number = 3 * place;
    gates.push(Gate::Nands {
        number: number + 1,
        first: count + 1,
        second: before,
    })?;
    gates.push(Gate::Nands {
        number: number + 2,
        first: shown(count, 0),
        second: loads,
    })?;
    gates.push(Gate::Nands {
        number: number + 3,
        first: shown(count, number + 1),
        second: shown(count, number + 2),
    })?;
    Ok(())
}

// Puts the two inverters behind the last register behind the others.
fn push_end(
    gates: &mut Vec<Gate>,
    count: usize,
    place: usize,
    before: usize,
) -> Result<(), AllocError>
    requires count { count < 2 ^ 32 }
    requires place { place < 2 ^ 32 }
    ensures { OnOk result (gates.new.items ≡ gates.old.items ++ end_of count place before) }
{
    let number = 3 * place;
    gates.push(Gate::Inverts {
        number: number + 1,
        input: before,
    })?;
    gates.push(Gate::Inverts {
        number: number + 2,
        input: shown(count, number + 1),
    })?;
    Ok(())
}

// The gate that gives the inverse of test, where there are registers.
fn first_gates(alloc: Global, count: usize, many: usize) -> Result<Vec<Gate>, AllocError>
    requires { count < 2 ^ 32 }
    ensures { IfOk result (λ gates. gates.items ≡ first_of count many) }
{
    let mut gates = Vec::new(alloc);
    if many > 0 {
        gates.push(Gate::Inverts {
            number: 0,
            input: count + 1,
        })?;
    }
    Ok(gates)
}

/// The gates for these registers in their order, where the given netlist has so many classes: s0, three for each register, and two
/// behind the last. Takes memory for each.
pub(crate) fn gates(
    alloc: Global,
    count: usize,
    registers: &[Register],
) -> Result<Vec<Gate>, AllocError>
    requires count { count < 2 ^ 32 }
    requires registers { length registers.now < 2 ^ 32 }
    ensures { IfOk result (λ gates. gates.items ≡ gate_list count registers.now) }
{
    let mut gates = first_gates(alloc, count, registers.len())?;
    let mut before = count;
    for place in 0..registers.len() {
        push_multiplexer(&mut gates, count, place, before, registers[place].loads)?;
        before = registers[place].gives;
    }
    push_end(&mut gates, count, registers.len(), before)?;
    Ok(gates)
}
