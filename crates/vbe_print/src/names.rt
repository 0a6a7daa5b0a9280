// The names that a text has.
ghost use Rattle.std.specs.Prelude.{◌≡◌, ◌<◌, ◌≤◌, ◌^◌, ◌+◌, ◌++◌, not, is_none, is_some, map, filter, length, take, drop, IfOk, OnOk};
ghost use Rattle.std.specs.List.{list_any};
ghost use Rattle.std.specs.FinMap.{get};
ghost use Rattle.vlsi_base.specs.declared.name.Name.{Name};
ghost use Rattle.vlsi_base.specs.Names.{scalar};
ghost use Rattle.machine_core.specs.Machine.{is_input};
ghost use Rattle.machine_core.specs.Named.{is_same_name};
ghost use Rattle.text_names.specs.Free.{free_texts};
ghost use Rattle.vbe_print.specs.Pieces.{inner_of};
ghost use Rattle.vbe_print.specs.Written.{renamed, signal_texts, written_names, written_vars};

use machine_core::{Equation, Machine, Register};
use std::alloc::{AllocError, Global};
use text_names::free_texts;
use vlsi_base::{Dir, Name, NameIndex, Port, Text};

/// The names of a text: those of the inner signals, and all names, of which the machine's variables are numbers.
#[derive(Drop)]
pub(crate) struct Spelling {
    /// The inner signals, which the text declares.
    pub(crate) signals: Vec<Text>,
    /// Inputs, registers and equations; those of inner signals are named as they are declared.
    pub(crate) vars: Vec<Name>,
    /// How many of them are inputs and registers.
    pub(crate) held: usize,
}

// The names of output ports.
fn output_names(alloc: Global, ports: &[Port]) -> Result<Vec<Name>, AllocError>
    ensures { IfOk result (λ names. names.items ≡ map (λ p. p.name) (filter (λ p. not (is_input p.dir)) ports.now)) }
{
    let mut names = Vec::new(alloc);
    for port in ports {
        if port.dir == Dir::Out {
            names.push(port.name.copy(alloc)?)?;
        }
    }
    Ok(names)
}

// The texts of ports and registers.
fn taken(alloc: Global, ports: &[Port], registers: &[Register]) -> Result<Vec<Text>, AllocError>
    ensures { IfOk result (λ texts. texts.items ≡ map (λ p. p.name.text) ports.now ++ map (λ r. r.name.text) registers.now) }
{
    let mut texts = Vec::new(alloc);
    for port in ports {
        texts.push(port.name.text.copy(alloc)?)?;
    }
    for register in registers {
        texts.push(register.name.text.copy(alloc)?)?;
    }
    Ok(texts)
}

// Whether the index lacks a name.
fn is_inner<'a>(outputs: &NameIndex<'a>, name: &'a Name) -> bool
    ensures { result ≡ is_none (get outputs.now name.now) }
{
    outputs.find(name.text.as_bytes(), name.bit).is_none()
}

// How many equations have names that the index lacks.
fn count_inner<'a>(outputs: &NameIndex<'a>, equations: &'a [Equation]) -> usize
    ensures count { result ≡ length (filter (λ e. is_none (get outputs.now e.name)) equations.now) }
    ensures few { result ≤ length equations.now }
{
    let mut many = 0;
    for equation in equations {
        if is_inner(outputs, &equation.name) {
            many += 1;
        }
    }
    many
}

// Puts the names of equations behind those that are there: outputs by their names, and inner signals by these in their order.
fn push_renamed<'a>(
    alloc: Global,
    vars: &mut Vec<Name>,
    outputs: &NameIndex<'a>,
    equations: &'a [Equation],
    signals: &[Text],
) -> Result<(), AllocError>
    requires { length signals.now ≡ length (filter (λ e. is_none (get outputs.now e.name)) equations.now) }
    ensures { OnOk result (vars.new.items ≡ vars.old.items
        ++ renamed (λ n. is_some (get outputs.now n)) (map (λ e. e.name) equations.now) (map scalar signals.now)) }
{
    let mut next = 0;
    for equation in equations {
        let name = &equation.name;
        if is_inner(outputs, name) {
            vars.push(Name::scalar(signals[next].copy(alloc)?))?;
            next += 1;
        } else {
            vars.push(name.copy(alloc)?)?;
        }
    }
    Ok(())
}

// An index of names.
fn index_of<'a>(alloc: Global, names: &'a [Name]) -> Result<NameIndex<'a>, AllocError>
    ensures { IfOk result (λ index. (n : Name) → is_some (get index n) ≡ list_any (λ m. is_same_name m n) names.now) }
{
    let mut index = NameIndex::new(alloc);
    index.insert_all(names)?;
    Ok(index)
}

// A text for each equation whose name the index lacks: the stem with a number, none of which is taken.
fn inner_texts<'a>(
    alloc: Global,
    stem: &[u8],
    outputs: &NameIndex<'a>,
    equations: &'a [Equation],
    taken: &[Text],
) -> Result<Vec<Text>, AllocError>
    requires { length equations.now + length taken.now < 2 ^ 63 }
    ensures are { IfOk result (λ signals. signals.items ≡ free_texts stem.now taken.now (inner_of outputs.now equations.now)) }
    ensures each { IfOk result (λ signals. length signals.items ≡ length (filter (λ e. is_none (get outputs.now e.name)) equations.now)) }
{
    let many = count_inner(outputs, equations);
    let signals = free_texts(alloc, stem, taken, many)?;
    Ok(signals)
}

// The first names.
fn first_names(alloc: Global, names: &[Name], many: usize) -> Result<Vec<Name>, AllocError>
    requires { many ≤ length names.now }
    ensures { IfOk result (λ made. made.items ≡ take many names.now) }
{
    let mut made = Vec::new(alloc);
    for name in &names[..many] {
        made.push(name.copy(alloc)?)?;
    }
    Ok(made)
}

/// The names of a machine's text, where inner signals have the stem with a number. Takes memory for them, and time for each the
/// logarithm of how many there are.
pub(crate) fn spelling_of(
    alloc: Global,
    machine: &Machine,
    stem: &[u8],
) -> Result<Spelling, AllocError>
    requires { length machine.now.vars + length machine.now.ports < 2 ^ 32 }
    ensures signals { IfOk result (λ made. made.signals.items ≡ signal_texts stem.now machine.now) }
    ensures vars { IfOk result (λ made. made.vars.items ≡ written_vars stem.now machine.now) }
    ensures held { IfOk result (λ made. drop made.held made.vars.items ≡ written_names stem.now machine.now) }
    ensures within { IfOk result (λ made. made.held ≤ length made.vars.items) }
{
    let ports = machine.ports().as_slice();
    let equations = machine.equations().as_slice();
    let named = output_names(alloc, ports)?;
    let outputs = index_of(alloc, &named)?;
    let texts = taken(alloc, ports, machine.registers().as_slice())?;
    let held = machine.vars().as_slice().len() - equations.len();
    let mut vars = first_names(alloc, machine.vars().as_slice(), held)?;
    let signals = inner_texts(alloc, stem, &outputs, equations, &texts)?;
    push_renamed(alloc, &mut vars, &outputs, equations, &signals)?;
    Ok(Spelling {
        signals,
        vars,
        held,
    })
}
