// Which ports are outputs: those to a bit of which an output pin is joined.
ghost use Rattle.std.specs.Prelude.{◌≡◌, ◌&&◌, false, map, IfOk, is_none, slice_index_or};
ghost use Rattle.std.specs.List.Sorted.{IsPermutation};
ghost use Rattle.vlsi_base.specs.Member.{AllDifferent};
ghost use Rattle.net_core.specs.Netlist.{AreInOrder};
ghost use Rattle.cougar_extract.specs.Stages.{AreBelow, AreOutputs, AreDrivenTexts, port_by, ArePortsBy};

use crate::links::Link;
use net_core::Roll;
use std::alloc::{AllocError, Global};
use vlsi_base::{Dir, Name, Port};

/// For each number whether an output pin has it.
fn outputs(alloc: Global, links: &[Link], count: usize) -> Result<Vec<bool>, AllocError>
    requires { AreBelow links.now count }
    ensures { IfOk result (λ marks. AreOutputs links.now marks.items) }
{
    let mut marks = vec![in alloc; false; count]?;
    for link in links {
        if link.gives {
            let number = link.number;
            marks[number as usize] = true;
        }
    }
    Ok(marks)
}

fn is_marked(marks: &[bool], link: &Link) -> bool
    ensures { result ≡ (is_none link.now.terminal.instance && slice_index_or marks.now link.now.number false) }
{
    if link.terminal.instance.is_some() {
        return false;
    }
    match marks.get(link.number as usize) {
        Some(mark) => *mark,
        None => false,
    }
}

/// The texts of port bits to which an output pin is joined, each once. Takes memory for them and for `count` marks.
fn driven_texts(alloc: Global, links: &[Link], count: usize) -> Result<Roll, AllocError>
    requires { AreBelow links.now count }
    ensures { IfOk result (λ texts. AreDrivenTexts links.now texts) }
{
    let marks = outputs(alloc, links, count)?;
    let mut texts = Roll::new(alloc);
    for link in links {
        if is_marked(&marks, link) {
            texts.learn(alloc, &link.terminal.pin.text)?;
        }
    }
    Ok(texts)
}

/// The ports of these names, with their directions by the texts that are driven.
fn directed(alloc: Global, names: &[Name], texts: &Roll) -> Result<Vec<Port>, AllocError>
    ensures { IfOk result (λ ports. ports.items ≡ map (port_by texts.now) names.now) }
{
    let mut ports = Vec::with_capacity(alloc, names.len())?;
    for name in names {
        let dir = match texts.place(&name.text) {
            Some(_) => Dir::Out,
            None => Dir::In,
        };
        ports.push(Port {
            name: name.copy(alloc)?,
            dir,
        })?;
    }
    Ok(ports)
}

/// Ports in the order of names.
fn sorted(ports: Vec<Port>) -> Result<Vec<Port>, AllocError>
    requires { AllDifferent (map (λ p. p.name) ports.items) }
    ensures moved { IfOk result (λ sorted. IsPermutation ports.items sorted.items) }
    ensures ordered { IfOk result (λ sorted. AreInOrder (map (λ p. p.name) sorted.items)) }
{
    let mut sorted = ports;
    sorted.sort_by(|a, b| a.name.compare(&b.name))?;
    Ok(sorted)
}

/// The ports of these names in their order, each with its direction. Takes memory for them and for `count` marks.
pub(crate) fn directed_ports(
    alloc: Global,
    names: &[Name],
    links: &[Link],
    count: usize,
) -> Result<Vec<Port>, AllocError>
    requires different { AllDifferent names.now }
    requires below { AreBelow links.now count }
    ensures { IfOk result (λ ports. ArePortsBy names.now links.now ports.items) }
{
    let texts = driven_texts(alloc, links, count)?;
    let made = directed(alloc, names, &texts)?;
    let ports = sorted(made)?;
    Ok(ports)
}
