// Instances as they are written.
ghost use Rattle.std.specs.Prelude.{◌≡◌, ◌++◌, ◌<◌, drop, length, OnOk};
ghost use Rattle.std.specs.List.{All};
ghost use Rattle.spell_theory.specs.Layout.{text_of};
ghost use Rattle.vst_print.specs.Structure.{mapping_layout, instances_layout};
ghost use Rattle.vst_print.specs.Written.{mapped, instances_with};
ghost use Rattle.vst_print.specs.Pieces.{label_text, maps_text};

use net_core::Netlist;
use std::alloc::{AllocError, Global};
use vlsi_base::{FileBytes, Name, Text};

/// A pin and its net.
fn mapping(alloc: Global, out: &mut FileBytes, pin: &Name, net: &Name) -> Result<(), AllocError>
    ensures { OnOk result (out.new ≡ out.old ++ text_of (mapping_layout (record { pin = pin.now; net = net.now }))) }
{
    let pin = pin.to_text(alloc)?;
    let net = net.to_text(alloc)?;
    out.append(b"  ")?;
    out.append(pin.as_bytes())?;
    out.append(b" => ")?;
    out.append(net.as_bytes())
}

/// Pins and the nets of their classes, each pair on a line.
fn mappings(
    alloc: Global,
    out: &mut FileBytes,
    nets: &[Name],
    pins: &[Name],
    classes: &[u32],
) -> Result<(), AllocError>
    requires some { 0 < length pins.now }
    requires each { length classes.now ≡ length pins.now }
    requires inside { All (λ class. class < length nets.now) classes.now }
    ensures { OnOk result (out.new ≡ out.old ++ maps_text (mapped nets.now pins.now classes.now)) }
{
    mapping(alloc, out, &pins[0], &nets[classes[0] as usize])?;
    for k in 1..pins.len() {
        out.append(b",\n")?;
        mapping(alloc, out, &pins[k], &nets[classes[k] as usize])?;
    }
    Ok(())
}

/// The first two lines of an instance.
fn label(out: &mut FileBytes, name: &Text, model: &Text) -> Result<(), AllocError>
    ensures { OnOk result (out.new ≡ out.old ++ label_text name.now model.now) }
{
    out.append(name.as_bytes())?;
    out.append(b" : ")?;
    out.append(model.as_bytes())?;
    out.append(b"\nport map (\n")?;
    Ok(())
}

/// The instances of a netlist, whose classes have these names.
pub fn instances(
    alloc: Global,
    out: &mut FileBytes,
    netlist: &Netlist,
    nets: &[Name],
) -> Result<(), AllocError>
    requires some { All (λ i. 0 < length i.pins) netlist.now.instances }
    requires inside { All (λ class. class < length nets.now) netlist.now.classes }
    ensures { OnOk result (out.new ≡ out.old
        ++ text_of (instances_layout (instances_with nets.now netlist.now.instances (drop (length netlist.now.ports) netlist.now.classes)))) }
{
    let models = netlist.models();
    let nodes = netlist.nodes();
    let mut rest = &netlist.classes()[netlist.ports().len()..];
    for node in nodes {
        let pins = node.pins.as_slice();
        let (own, others) = rest.split_at(pins.len());
        label(out, &node.name, &models[node.model])?;
        mappings(alloc, out, nets, pins, own)?;
        out.append(b");\n")?;
        rest = others;
    }
    Ok(())
}
