// Ports as they are declared.
ghost use Rattle.std.specs.Prelude.{◌≡◌, ◌++◌, ◌∷◌, ◌<◌, ◌≤◌, [], None, Some, map, length, IfOk, OnOk, ℕ};
ghost use Rattle.std.specs.Fmt.{decimal};
ghost use Rattle.vlsi_base.specs.declared.name.Port.{Port};
ghost use Rattle.spell_theory.specs.Layout.{text_of};
ghost use Rattle.vhdl_print.specs.Outline.{type_layout, mode_word, a_word, port_layout, entity_layout};
ghost use Rattle.net_right.specs.Writable.{port_of};
ghost use Rattle.vst_print.specs.Groups.{group_of, bounds_of, mode_of, declared, grouped, outline};
ghost use Rattle.vst_print.specs.Structure.{component_layout};
ghost use Rattle.vst_print.specs.Pieces.{IsRunEnd, ports_text};

use net_core::ModelPin;
use std::alloc::{AllocError, Global};
use vlsi_base::{Dir, FileBytes, Name, Port, Text};

/// A number.
pub fn number(alloc: Global, out: &mut FileBytes, n: u32) -> Result<(), AllocError>
    ensures { OnOk result (out.new ≡ out.old ++ decimal n) }
{
    let text = n.to_string(alloc)?;
    out.append(text.as_bytes())
}

fn mode(out: &mut FileBytes, dir: Dir) -> Result<(), AllocError>
    ensures { OnOk result (out.new ≡ out.old ++ text_of (a_word (mode_word (mode_of dir)) ∷ [])) }
{
    match dir {
        Dir::In => out.append(b"in"),
        Dir::Out => out.append(b"out"),
    }
}

/// A vector from its greatest bit down to its least.
fn vector(alloc: Global, out: &mut FileBytes, low: u32, high: u32) -> Result<(), AllocError>
    ensures { OnOk result (out.new ≡ out.old ++ text_of (type_layout (bounds_of (Some low) (Some high)))) }
{
    out.append(b"bit_vector (")?;
    number(alloc, out, high)?;
    out.append(b" downto ")?;
    number(alloc, out, low)?;
    out.append(b")")
}

/// The type of a port with these bits.
fn kind(
    alloc: Global,
    out: &mut FileBytes,
    low: Option<u32>,
    high: Option<u32>,
) -> Result<(), AllocError>
    ensures { OnOk result (out.new ≡ out.old ++ text_of (type_layout (bounds_of low high))) }
{
    match (low, high) {
        (Some(low), Some(high)) => vector(alloc, out, low, high),
        _ => out.append(b"bit"),
    }
}

/// Ports of one text, from the first to the last.
fn group(alloc: Global, out: &mut FileBytes, first: &Port, last: &Port) -> Result<(), AllocError>
    ensures { OnOk result (out.new ≡ out.old ++ text_of (port_layout (declared (group_of first.now last.now)))) }
{
    out.append(b"  ")?;
    out.append(first.name.text.as_bytes())?;
    out.append(b" : ")?;
    mode(out, first.dir)?;
    out.append(b" ")?;
    kind(alloc, out, first.name.bit, last.name.bit)
}

/// The first place behind a port whose port has another text.
fn run_end(ports: &[Port], start: usize) -> usize
    requires { start < length ports.now }
    ensures { IsRunEnd ports.now start result }
{
    let mut end = start + 1;
    while end < ports.len() && ports[end].name.text.is_same(&ports[start].name.text) {
        end += 1;
    }
    end
}

/// Ports in the order of names, each group of one text on a line.
fn groups(alloc: Global, out: &mut FileBytes, ports: &[Port]) -> Result<(), AllocError>
    requires { 0 < length ports.now }
    ensures { OnOk result (out.new ≡ out.old ++ ports_text (map declared (grouped ports.now))) }
{
    let mut start = run_end(ports, 0);
    group(alloc, out, &ports[0], &ports[start - 1])?;
    while start < ports.len() {
        let end = run_end(ports, start);
        out.append(b";\n")?;
        group(alloc, out, &ports[start], &ports[end - 1])?;
        start = end;
    }
    Ok(())
}

/// The entity.
pub fn entity(
    alloc: Global,
    out: &mut FileBytes,
    name: &Text,
    ports: &[Port],
) -> Result<(), AllocError>
    requires { 0 < length ports.now }
    ensures { OnOk result (out.new ≡ out.old ++ text_of (entity_layout (outline name.now ports.now))) }
{
    out.append(b"entity ")?;
    out.append(name.as_bytes())?;
    out.append(b" is\nport (\n")?;
    groups(alloc, out, ports)?;
    out.append(b");\nend ")?;
    out.append(name.as_bytes())?;
    out.append(b";\n")
}

/// Pins as the ports of their model.
fn pin_ports(alloc: Global, pins: &[ModelPin]) -> Result<Vec<Port>, AllocError>
    ensures { IfOk result (λ ports. ports.items ≡ map port_of pins.now) }
{
    let mut ports = Vec::with_capacity(alloc, pins.len())?;
    for pin in pins {
        ports.push(Port {
            name: pin.name.copy(alloc)?,
            dir: pin.dir,
        })?;
    }
    Ok(ports)
}

/// The component of a model with these pins.
pub fn component(
    alloc: Global,
    out: &mut FileBytes,
    model: &Text,
    pins: &[ModelPin],
) -> Result<(), AllocError>
    requires { 0 < length pins.now }
    ensures { OnOk result (out.new ≡ out.old ++ text_of (component_layout (outline model.now (map port_of pins.now)))) }
{
    let ports = pin_ports(alloc, pins)?;
    out.append(b"component ")?;
    out.append(model.as_bytes())?;
    out.append(b"\nport (\n")?;
    groups(alloc, out, &ports)?;
    out.append(b");\nend component;\n")
}
