// The names that are added, and those that are taken.
ghost use Rattle.std.specs.Prelude.{◌≡◌, ◌+◌, ◌*◌, ◌<◌, ◌^◌, ◌↔◌, ◌++◌, List, ℕ, map, nat_eq, IfOk, IfSome, IsNone, OnOk, if◌then◌else◌};
ghost use Rattle.vlsi_base.specs.Member.{In};
ghost use Rattle.net_core.specs.Places.{IsThere};
ghost use Rattle.loon_wiring.specs.Repeaters.{IsFirst};
ghost use Rattle.scan_theory.specs.Scan.{gate_name};
ghost use Rattle.scan_theory.specs.Path.{gate_numbers, added, IsTaken};

use net_core::{Netlist, Node, Roll};
use std::alloc::{AllocError, Global};
use vlsi_base::{Port, Text, push_u64};

/// The name of the gate with a number. Takes memory for it.
pub fn gate_name(alloc: Global, number: u64) -> Result<Text, AllocError>
    ensures { IfOk result (λ text. text ≡ gate_name number) }
{
    let mut text = Text::from_bytes(alloc, b"s")?;
    push_u64(alloc, &mut text, number)?;
    Ok(text)
}

// The number of the first gate for so many registers.
fn first_number(many: usize) -> u64
    ensures { result ≡ (if nat_eq many 0 then 1 else 0) }
{
    if many == 0 { 1 } else { 0 }
}

// Puts the names of the gates for so many registers behind the others.
fn push_gate_names(alloc: Global, names: &mut Vec<Text>, many: usize) -> Result<(), AllocError>
    requires { many < 2 ^ 32 }
    ensures { OnOk result (names.new.items ≡ names.old.items ++ map gate_name (gate_numbers many)) }
{
    let first = first_number(many);
    for number in first..3 * many as u64 + 3 {
        names.push(gate_name(alloc, number)?)?;
    }
    Ok(())
}

// The names that are added for so many registers, in their order.
fn added_names(alloc: Global, many: usize) -> Result<Vec<Text>, AllocError>
    requires { many < 2 ^ 32 }
    ensures { IfOk result (λ names. names.items ≡ added many) }
{
    let mut names = Vec::new(alloc);
    names.push(Text::from_bytes(alloc, b"scin")?)?;
    names.push(Text::from_bytes(alloc, b"test")?)?;
    names.push(Text::from_bytes(alloc, b"scout")?)?;
    push_gate_names(alloc, &mut names, many)?;
    Ok(names)
}

fn port_texts(alloc: Global, ports: &[Port]) -> Result<Vec<Text>, AllocError>
    ensures { IfOk result (λ texts. texts.items ≡ map (λ p. p.name.text) ports.now) }
{
    let mut texts = Vec::new(alloc);
    for port in ports {
        texts.push(port.name.text.copy(alloc)?)?;
    }
    Ok(texts)
}

fn node_names(alloc: Global, nodes: &[Node]) -> Result<Vec<Text>, AllocError>
    ensures { IfOk result (λ names. names.items ≡ map (λ i. i.name) nodes.now) }
{
    let mut names = Vec::new(alloc);
    for node in nodes {
        names.push(node.name.copy(alloc)?)?;
    }
    Ok(names)
}

// The texts of the ports and the names of the instances.
fn used_texts(alloc: Global, netlist: &Netlist) -> Result<Roll, AllocError>
    ensures { IfOk result (λ used. (text : List ℕ) → IsThere used text ↔ IsTaken netlist.now text) }
{
    let texts = port_texts(alloc, netlist.ports())?;
    let names = node_names(alloc, netlist.nodes())?;
    let mut used = Roll::new(alloc);
    used.learn_all(alloc, &texts)?;
    used.learn_all(alloc, &names)?;
    Ok(used)
}

// The first of these texts that is on the roll.
fn first_on<'t>(roll: &Roll, texts: &'t [Text]) -> Option<&'t Text>
    ensures found { IfSome result (λ text. IsFirst (IsThere roll.now) texts.now text.now) }
    ensures none { IsNone result → (text : List ℕ) → In text texts.now → IsThere roll.now text → ⊥ }
{
    for text in texts {
        if roll.place(text).is_some() {
            return Some(text);
        }
    }
    None
}

/// The first of the names that are added for so many registers which a port has as its text, or an instance as its name. Takes memory
/// for all these names.
pub(crate) fn first_taken(
    alloc: Global,
    netlist: &Netlist,
    many: usize,
) -> Result<Option<Text>, AllocError>
    requires { many < 2 ^ 32 }
    ensures found { IfOk result (λ o. IfSome o (λ text. IsFirst (IsTaken netlist.now) (added many) text)) }
    ensures none { IfOk result (λ o. IsNone o → (text : List ℕ) → In text (added many) → IsTaken netlist.now text → ⊥) }
{
    let used = used_texts(alloc, netlist)?;
    let names = added_names(alloc, many)?;
    match first_on(&used, &names) {
        Some(text) => Ok(Some(text.copy(alloc)?)),
        None => Ok(None),
    }
}
