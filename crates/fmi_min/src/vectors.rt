// The vectors of the inputs that statements read, by their numbers.
ghost use Rattle.std.specs.Prelude.{◌≡◌, ◌≤◌, ◌^◌, ◌++◌, ◌∷◌, [], if◌then◌else◌, length, map, All, IfOk, OnOk};
ghost use Rattle.fsm_machine.specs.MachineOf.{up};
ghost use Rattle.fsm_walk.specs.Words.{word as word_of};
ghost use Rattle.syf_machine.specs.Named.{is_read as is_read_of};
ghost use Rattle.fmi_min.specs.declared.vectors.TheConstants.{MOST_INPUTS};
ghost use Rattle.fmi_min.specs.Vectors.{picked as picked_of};

use bool_expr::Bits;
use fsm_core::StateMachine;
use fsm_walk::word;
use std::alloc::{AllocError, Global};
use vlsi_base::{Dir, Name, Port};

/// The most input bits that statements may read: the table of moves has a column for each vector of them.
pub const MOST_INPUTS: u32 = 12;

// How many vectors so many input bits have.
pub(crate) fn vector_count(inputs: u32) -> u32
    requires { inputs ≤ MOST_INPUTS }
    ensures { result ≡ 2 ^ inputs }
{
    1 << inputs
}

// The bits of the ports by the numbers below a count. Takes memory for them.
pub(crate) fn words(alloc: Global, marks: &[bool], count: u32) -> Result<Vec<Bits>, AllocError>
    ensures { IfOk result (λ words. words.items ≡ map (word_of marks.now) (up 0 count)) }
{
    let mut words = Vec::new(alloc);
    for number in 0..count {
        words.push(word(alloc, marks, number)?)?;
    }
    Ok(words)
}

// Whether statements can read a port: it is an input, and not the clock.
fn is_read(port: &Port, clock: &Name) -> bool
    ensures { result ≡ is_read_of clock.now port.now }
{
    port.dir == Dir::In && !port.name.is_same(clock)
}

// Puts a bit behind the others, if it is wanted.
fn push_if(bits: &mut Vec<bool>, wanted: bool, bit: bool) -> Result<(), AllocError>
    ensures { OnOk result (bits.new.items ≡ (if wanted then bits.old.items ++ bit ∷ [] else bits.old.items)) }
{
    if wanted {
        bits.push(bit)?;
    }
    Ok(())
}

// The bits of the inputs but the clock, of bits of the ports. Takes memory for them.
fn picked(alloc: Global, clock: &Name, ports: &[Port], word: &[bool]) -> Result<Bits, AllocError>
    requires { length word.now ≡ length ports.now }
    ensures { IfOk result (λ bits. bits ≡ picked_of clock.now ports.now word.now) }
{
    let mut bits = Vec::new(alloc);
    for (k, port) in ports.iter().enumerate() {
        push_if(&mut bits, is_read(port, clock), word[k])?;
    }
    Ok(Bits::new(bits))
}

// The vectors of the inputs that these bits of the ports stand for. Takes memory for them.
pub(crate) fn vectors(
    alloc: Global,
    machine: &StateMachine,
    words: &[Bits],
) -> Result<Vec<Bits>, AllocError>
    requires { All (λ w. length w ≡ length machine.now.ports) words.now }
    ensures { IfOk result (λ vectors. vectors.items ≡ map (picked_of machine.now.clock machine.now.ports) words.now) }
{
    let clock = machine.clock();
    let ports = machine.ports().as_slice();
    let mut vectors = Vec::new(alloc);
    for word in words {
        vectors.push(picked(alloc, clock, ports, word.as_slice())?)?;
    }
    Ok(vectors)
}
