// A name for new signals.
ghost use Rattle.std.specs.Prelude.{◌≡◌, ◌++◌, ◌+◌, ◌-◌, ◌<◌, ◌^◌, length, IfOk, OnOk};
ghost use Rattle.machine_core.specs.Machine.{names_of};
ghost use Rattle.boom_muxes.specs.Names.{IsFreshText, texts_of};

use std::alloc::{AllocError, Global};
use text_names::free_texts;
use vlsi_base::{Name, Port, Text};

/// The texts of all these names.
fn texts(alloc: Global, ports: &[Port], names: &[Name]) -> Result<Vec<Text>, AllocError>
    ensures { IfOk result (λ texts. texts.items ≡ texts_of (names_of ports.now ++ names.now)) }
{
    let mut texts = Vec::new(alloc);
    for port in ports {
        texts.push(port.name.text.copy(alloc)?)?;
    }
    for name in names {
        texts.push(name.text.copy(alloc)?)?;
    }
    Ok(texts)
}

/// An `n` and a number, which isn't the text of any of these names. Takes memory for the texts of all names.
pub fn new_text(alloc: Global, ports: &[Port], names: &[Name]) -> Result<Text, AllocError>
    requires { length ports.now + length names.now < 2 ^ 32 - 1 }
    ensures { IfOk result (λ text. IsFreshText (names_of ports.now ++ names.now) text) }
{
    let taken = texts(alloc, ports, names)?;
    let free = free_texts(alloc, b"n", &taken, 1)?;
    let text = free[0].copy(alloc)?;
    Ok(text)
}
