// A circuit from a number.
ghost use Rattle.std.specs.Prelude.{◌≡◌, ◌≤◌, ◌<◌, ◌+◌, ◌-◌, ◌%◌, ◌++◌, ◌∷◌, [], codes, map, IfOk, OnOk};
ghost use Rattle.bool_expr.specs.View.{view};
ghost use Rattle.machine_core.specs.Checked.{IsChecked};
ghost use Rattle.machine_core.specs.View.{equation_view, register_view};
ghost use Rattle.vlsi_base.specs.Range.{rising};
ghost use Rattle.gen_circuit.specs.Generated.{bit_of, four_bits, gate_name, port_of, ports, of_gate, kind, choices, operand, gate_by, gates, output, register, circuit_of, words_of, generated, clock};

use crate::law::circuits_are_checked;
use bool_expr::{Expr, Gate};
use machine_core::{Equation, Machine, Register};
use rand_core::SeedableRng;
use rand_core::utils::NextWord;
use rand_pcg::Pcg32;
use std::alloc::{AllocError, Global};
use vlsi_base::{Dir, Listed, Name, Port, Text, push_u64};

/// The fewest gates of a circuit.
pub const LEAST_SIZE: u32 = 8;

/// The most gates of a circuit.
pub const MOST_SIZE: u32 = 4000;

// How many bits each vector has: the inputs, the outputs, and the registers.
const WIDTH: u32 = 4;

// The number of the first gate among the variables, behind the inputs and the registers.
const FIRST_GATE: u32 = 8;

// How far back a gate reads.
const REACH: u32 = 8;

fn bit_of(alloc: Global, text: &[u8], bit: u32) -> Result<Name, AllocError>
    ensures { IfOk result (λ name. name ≡ bit_of text.now bit) }
{
    Ok(Name {
        text: Text::from_bytes(alloc, text)?,
        bit: Some(bit),
    })
}

fn gate_name(alloc: Global, number: u32) -> Result<Name, AllocError>
    ensures { IfOk result (λ name. name ≡ gate_name number) }
{
    let mut text = Text::from_bytes(alloc, b"g")?;
    push_u64(alloc, &mut text, u64::from(number))?;
    Ok(Name::scalar(text))
}

// The kind of a gate.
fn kind(word: u32) -> Gate
    ensures { result ≡ kind word }
{
    match word % 4 {
        0 => Gate::Nand,
        1 => Gate::Nor,
        2 => Gate::Xor,
        _ => Gate::And,
    }
}

// The variable that the bits of a word choose for a gate: an input, a register, or one of the gates before it.
fn operand(gate: u32, bits: u32) -> Expr
    requires { gate < MOST_SIZE }
    ensures { view result ≡ operand gate (bits % choices gate) }
{
    let number = bits % (FIRST_GATE + gate.min(REACH));
    if number < FIRST_GATE {
        return Expr::Var(number);
    }
    Expr::Var(FIRST_GATE + (gate - 1 - (number - FIRST_GATE)))
}

// A gate by its word.
fn gate_by(alloc: Global, gate: u32, word: u32) -> Result<Equation, AllocError>
    requires { gate < MOST_SIZE }
    ensures { IfOk result (λ equation. equation_view equation ≡ gate_by gate word) }
{
    let left = Box::new(alloc, operand(gate, word >> 8))?;
    let right = Box::new(alloc, operand(gate, word >> 20))?;
    Ok(Equation {
        name: gate_name(alloc, gate)?,
        expr: Expr::Pair(kind(word), left, right),
    })
}

// So many gates, by the words of the generator with this seed.
fn gates(alloc: Global, seed: u32, size: u32) -> Result<Vec<Equation>, AllocError>
    requires { size ≤ MOST_SIZE }
    ensures { IfOk result (λ made. map equation_view made.items ≡ gates 0 (words_of seed size)) }
{
    let mut generator = Pcg32::seed_from_u64(u64::from(seed));
    let mut made = Vec::new(alloc);
    for gate in 0..size {
        made.push(gate_by(alloc, gate, generator.next_word())?)?;
    }
    Ok(made)
}

// An output, which shows a gate.
fn output(alloc: Global, size: u32, bit: u32) -> Result<Equation, AllocError>
    requires bit { bit < 4 }
    requires least { 8 ≤ size }
    requires most { size ≤ MOST_SIZE }
    ensures { IfOk result (λ equation. equation_view equation ≡ output size bit) }
{
    Ok(Equation {
        name: bit_of(alloc, b"y", bit)?,
        expr: Expr::Var(FIRST_GATE + (size - 1 - bit)),
    })
}

// A register, which loads a gate.
fn register(alloc: Global, size: u32, bit: u32) -> Result<Register, AllocError>
    requires bit { bit < 4 }
    requires least { 8 ≤ size }
    requires most { size ≤ MOST_SIZE }
    ensures { IfOk result (λ made. register_view made ≡ register size bit) }
{
    Ok(Register {
        name: bit_of(alloc, b"r", bit)?,
        next: Expr::Var(FIRST_GATE + (size - 5 - bit)),
        enable: Expr::Const(true),
    })
}

// The gates, and behind them the outputs.
fn equations(alloc: Global, seed: u32, size: u32) -> Result<Vec<Equation>, AllocError>
    requires least { 8 ≤ size }
    requires most { size ≤ MOST_SIZE }
    ensures { IfOk result (λ made. map equation_view made.items ≡ gates 0 (words_of seed size) ++ map (output size) (rising 0 4)) }
{
    let mut made = gates(alloc, seed, size)?;
    for bit in 0..WIDTH {
        made.push(output(alloc, size, bit)?)?;
    }
    Ok(made)
}

fn registers(alloc: Global, size: u32) -> Result<Vec<Register>, AllocError>
    requires least { 8 ≤ size }
    requires most { size ≤ MOST_SIZE }
    ensures { IfOk result (λ made. map register_view made.items ≡ map (register size) (rising 0 4)) }
{
    let mut made = Vec::new(alloc);
    for bit in 0..WIDTH {
        made.push(register(alloc, size, bit)?)?;
    }
    Ok(made)
}

// Puts the bits of a vector behind names.
fn push_bits(alloc: Global, text: &[u8], names: &mut Vec<Name>) -> Result<(), AllocError>
    ensures { OnOk result (names.new.items ≡ names.old.items ++ four_bits text.now) }
{
    for bit in 0..WIDTH {
        names.push(bit_of(alloc, text, bit)?)?;
    }
    Ok(())
}

// The names: of inputs, of registers, and of equations.
fn names(alloc: Global, equations: &[Equation]) -> Result<Vec<Name>, AllocError>
    ensures { IfOk result (λ names. names.items
        ≡ (four_bits (codes "x") ++ four_bits (codes "r")) ++ map (λ e. e.name) (map equation_view equations.now)) }
{
    let mut names = Vec::new(alloc);
    push_bits(alloc, b"x", &mut names)?;
    push_bits(alloc, b"r", &mut names)?;
    for equation in equations {
        names.push(equation.name.copy(alloc)?)?;
    }
    Ok(names)
}

// Puts the bits of a vector of ports behind others.
fn push_ports(alloc: Global, text: &[u8], dir: Dir, ports: &mut Vec<Port>) -> Result<(), AllocError>
    ensures { OnOk result (ports.new.items ≡ ports.old.items ++ map (port_of dir) (four_bits text.now)) }
{
    for bit in 0..WIDTH {
        ports.push(Port {
            name: bit_of(alloc, text, bit)?,
            dir,
        })?;
    }
    Ok(())
}

fn clock(alloc: Global) -> Result<Name, AllocError>
    ensures { IfOk result (λ name. name ≡ clock) }
{
    Ok(Name::scalar(Text::from_bytes(alloc, b"ck")?))
}

// The clock, the inputs and the outputs.
fn ports(alloc: Global) -> Result<Vec<Port>, AllocError>
    ensures { IfOk result (λ made. made.items ≡ ports) }
{
    let mut made = Vec::new(alloc);
    made.push(Port {
        name: clock(alloc)?,
        dir: Dir::In,
    })?;
    push_ports(alloc, b"x", Dir::In, &mut made)?;
    push_ports(alloc, b"y", Dir::Out, &mut made)?;
    Ok(made)
}

// The circuit of these equations and registers.
fn circuit_of(
    alloc: Global,
    equations: Vec<Equation>,
    registers: Vec<Register>,
) -> Result<Machine, AllocError>
    requires { IsChecked (circuit_of (map equation_view equations.items) (map register_view registers.items)) }
    ensures { IfOk result (λ m. m ≡ circuit_of (map equation_view equations.items) (map register_view registers.items)) }
{
    let name = Text::from_bytes(alloc, b"gen")?;
    let clock = clock(alloc)?;
    let ports = ports(alloc)?;
    let vars = names(alloc, &equations)?;
    Ok(Machine::new(
        name,
        Listed::new(ports),
        Some(clock),
        Listed::new(vars),
        Listed::new(equations),
        Listed::new(registers),
    ))
}

/// The circuit of so many gates from a seed. It is called `gen` and has the clock ck, the inputs x(0) to x(3), the outputs y(0) to y(3)
/// and the registers r(0) to r(3). Gate j is made of word j of PCG32 from the seed: its lowest two bits give nand, nor, xor and `and`,
/// and those from bit 8 on and from bit 20 on, by the remainder, its operands, each an input, a register, or one of the eight gates
/// before it. The outputs show the last four gates, from the last one back, and the registers load the four before these in each
/// cycle. Takes memory for the names and the gates.
pub fn circuit(alloc: Global, seed: u32, size: u32) -> Result<Machine, AllocError>
    requires least { LEAST_SIZE ≤ size }
    requires most { size ≤ MOST_SIZE }
    ensures { IfOk result (λ m. m ≡ generated seed size) }
{
    circuits_are_checked();
    let equations = equations(alloc, seed, size)?;
    let registers = registers(alloc, size)?;
    circuit_of(alloc, equations, registers)
}
