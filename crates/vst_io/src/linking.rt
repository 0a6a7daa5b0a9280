// The terminals of a netlist, each with the bit of a net that it stands for.
ghost use Rattle.std.specs.Prelude.{◌≡◌, ◌++◌, map, IfOk, OnOk};
ghost use Rattle.std.specs.List.{flat_map};
ghost use Rattle.vlsi_base.specs.NamePlaces.{name_of};
ghost use Rattle.net_core.specs.Netlist.{port, pin_of};
ghost use Rattle.vst_io.specs.Nets.{links_of, instance_links};

use crate::bits::{net_bits, pin_bits};
use crate::known::Known;
use source_checks::SymbolTable;
use std::alloc::{AllocError, Global};
use vlsi_base::{Name, Port, Terminal, Text};
use vst_text::{Association, InstanceStatement};

/// A terminal, and the bit of a net that it stands for.
pub type Link = (Terminal, Name);

/// A pin's bit of an instance, and the bit of a net that it is mapped to.
fn link(
    alloc: Global,
    label: &Text,
    association: &Association,
    bit: Option<u32>,
    net_bit: Option<u32>,
) -> Result<Link, AllocError>
    ensures { IfOk result (λ l. l ≡ (pin_of label.now (name_of association.now.pin.text bit), name_of association.now.net.name net_bit)) }
{
    let instance = Some(label.copy(alloc)?);
    let pin = Name {
        text: association.pin.text.copy(alloc)?,
        bit,
    };
    let net = Name {
        text: association.net.name.copy(alloc)?,
        bit: net_bit,
    };
    Ok((Terminal { instance, pin }, net))
}

/// Puts the links of one association behind the others, by the pins of its component and the nets of the text.
fn push_links(
    alloc: Global,
    links: &mut Vec<Link>,
    known: (&SymbolTable, &SymbolTable),
    label: &Text,
    association: &Association,
) -> Result<(), AllocError>
    ensures { OnOk result (links.new.items ≡ links.old.items ++ links_of known.entry.0.now known.entry.1.now label.now association.now) }
{
    let bits = pin_bits(alloc, known.0, &association.pin)?;
    let net_bits = net_bits(alloc, known.1, &association.net)?;
    let count = bits.len().min(net_bits.len());
    for k in 0..count {
        links.push(link(alloc, label, association, bits[k], net_bits[k])?)?;
    }
    Ok(())
}

/// Puts the links of an instance behind the others.
fn push_instance<'a>(
    alloc: Global,
    links: &mut Vec<Link>,
    known: &Known<'a>,
    instance: &'a InstanceStatement,
) -> Result<(), AllocError>
    ensures { OnOk result (links.new.items ≡ links.old.items ++ instance_links known.now.file instance.now) }
{
    let Some(pins) = known.component(&instance.component) else {
        return Ok(());
    };
    for association in instance.associations.as_slice() {
        push_links(
            alloc,
            links,
            (pins, known.nets()),
            &instance.label,
            association,
        )?;
    }
    Ok(())
}

/// The links of ports: each stands for its own bit.
fn port_links(alloc: Global, ports: &[Port]) -> Result<Vec<Link>, AllocError>
    ensures { IfOk result (λ links. links.items ≡ map (λ p. (port p.name, p.name)) ports.now) }
{
    let mut links = Vec::new(alloc);
    for port in ports {
        let end = Terminal {
            instance: None,
            pin: port.name.copy(alloc)?,
        };
        links.push((end, port.name.copy(alloc)?))?;
    }
    Ok(links)
}

/// The links of these ports and of all instances. Takes memory for the names of each terminal.
pub fn links(alloc: Global, known: &Known, ports: &[Port]) -> Result<Vec<Link>, AllocError>
    ensures { IfOk result (λ links. links.items ≡ map (λ p. (port p.name, p.name)) ports.now
        ++ flat_map (instance_links known.now.file) known.now.file.instances) }
{
    let mut links = port_links(alloc, ports)?;
    for instance in known.file().instances.as_slice() {
        push_instance(alloc, &mut links, known, instance)?;
    }
    Ok(links)
}
