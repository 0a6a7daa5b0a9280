// The names of a machine.
ghost use Rattle.std.specs.Prelude.{◌≡◌, ◌<◌, ◌^◌, ◌+◌, codes, filter, not, length, IfOk};
ghost use Rattle.machine_core.specs.Machine.{is_input, names_of};
ghost use Rattle.text_names.specs.Free.{IsFirstFree};
ghost use Rattle.syf_machine.specs.Named.{is_read, names_for, numbers_from, texts_of};

use std::alloc::{AllocError, Global};
use text_names::{first_free, free_texts};
use vlsi_base::{Dir, Name, Port, Text};

/// Whether statements can read a port: it is an input, and not the clock.
pub(crate) fn is_read(port: &Port, clock: &Name) -> bool
    ensures { result ≡ is_read clock.now port.now }
{
    port.dir == Dir::In && !port.name.is_same(clock)
}

/// The names of the inputs that can be read.
pub(crate) fn inputs(alloc: Global, ports: &[Port], clock: &Name) -> Result<Vec<Name>, AllocError>
    ensures { IfOk result (λ names. names.items ≡ names_of (filter (is_read clock.now) ports.now)) }
{
    let mut names = Vec::new(alloc);
    for port in ports {
        if is_read(port, clock) {
            names.push(port.name.copy(alloc)?)?;
        }
    }
    Ok(names)
}

/// The names of the outputs.
pub(crate) fn outputs(alloc: Global, ports: &[Port]) -> Result<Vec<Name>, AllocError>
    ensures { IfOk result (λ names. names.items ≡ names_of (filter (λ p. not (is_input p.dir)) ports.now)) }
{
    let mut names = Vec::new(alloc);
    for port in ports {
        if port.dir == Dir::Out {
            names.push(port.name.copy(alloc)?)?;
        }
    }
    Ok(names)
}

/// The number of each port as a variable: the inputs that can be read have theirs in their order, and what isn't read has 0.
pub(crate) fn port_numbers(
    alloc: Global,
    ports: &[Port],
    clock: &Name,
) -> Result<Vec<u32>, AllocError>
    requires { length ports.now < 2 ^ 32 }
    ensures { IfOk result (λ numbers. numbers.items ≡ numbers_from 0 clock.now ports.now) }
{
    let mut numbers = Vec::with_capacity(alloc, ports.len())?;
    let mut next = 0;
    for port in ports {
        if is_read(port, clock) {
            numbers.push(next)?;
            next += 1;
        } else {
            numbers.push(0)?;
        }
    }
    Ok(numbers)
}

// The texts of ports.
fn texts(alloc: Global, ports: &[Port]) -> Result<Vec<Text>, AllocError>
    ensures { IfOk result (λ texts. texts.items ≡ texts_of ports.now) }
{
    let mut texts = Vec::with_capacity(alloc, ports.len())?;
    for port in ports {
        texts.push(port.name.text.copy(alloc)?)?;
    }
    Ok(texts)
}

/// The names of so many inner signals: n0, n1, and so on, without those whose text a port has.
pub(crate) fn inner_names(
    alloc: Global,
    ports: &[Port],
    many: usize,
) -> Result<Vec<Name>, AllocError>
    requires { many + length ports.now < 2 ^ 63 }
    ensures { IfOk result (λ names. names.items ≡ names_for ports.now many) }
{
    let taken = texts(alloc, ports)?;
    let mut names = Vec::with_capacity(alloc, many)?;
    for text in free_texts(alloc, b"n", &taken, many)? {
        names.push(Name::scalar(text))?;
    }
    Ok(names)
}

/// The text of the registers' names: the first of st, st0, st1, and so on that no port has.
pub(crate) fn register_text(alloc: Global, ports: &[Port]) -> Result<Text, AllocError>
    requires { length ports.now < 2 ^ 63 }
    ensures { IfOk result (λ text. IsFirstFree (codes "st") (texts_of ports.now) text) }
{
    let taken = texts(alloc, ports)?;
    first_free(alloc, b"st", &taken)
}

/// Copies of ports. Takes memory for their names.
pub(crate) fn copied(alloc: Global, ports: &[Port]) -> Result<Vec<Port>, AllocError>
    ensures { IfOk result (λ copies. copies.items ≡ ports.now) }
{
    let mut copies = Vec::with_capacity(alloc, ports.len())?;
    for port in ports {
        copies.push(Port {
            name: port.name.copy(alloc)?,
            dir: port.dir,
        })?;
    }
    Ok(copies)
}
