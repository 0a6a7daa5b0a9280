// Netlists as structural texts.
ghost use Rattle.std.specs.Prelude.{◌≡◌, ◌++◌, ◌<◌, map, length, IfOk, OnOk, IfErr};
ghost use Rattle.std.specs.List.{All};
ghost use Rattle.spell_theory.specs.Layout.{text_of};
ghost use Rattle.net_core.specs.Frame.{instance_of};
ghost use Rattle.net_core.specs.Checks.{Fits};
ghost use Rattle.net_right.specs.Writable.{PinsCanBeWritten, CanBeNamed, IsBadMap};
ghost use Rattle.vst_print.specs.Structure.{head_layout, signals_layout, components_layout, begin_layout};
ghost use Rattle.vst_print.specs.Written.{used_models, component_of, layout, IsWriteRefusal};
ghost use Rattle.vst_print.specs.Pieces.{front_text, body_text};

use crate::error::WriteError;
use crate::groups::{component, entity};
use crate::instances::instances;
use crate::nets::net_names;
use crate::test::can_be_named;
use net_core::{Netlist, Node, PinTable, Roll, model_names, pins_of};
use std::alloc::{AllocError, Global};
use vlsi_base::{FileBytes, Name, Text};

/// The models of instances, each once, in the order in which instances first have them.
fn used_models(alloc: Global, models: &[Text], nodes: &[Node]) -> Result<Roll, AllocError>
    requires { All (λ i. i.model < length models.now) nodes.now }
    ensures { IfOk result (λ used. used ≡ used_models (map (instance_of models.now) nodes.now)) }
{
    let mut used = Roll::new(alloc);
    for node in nodes {
        used.learn(alloc, &models[node.model])?;
    }
    Ok(used)
}

/// A component for each model that an instance has.
fn components(
    alloc: Global,
    out: &mut FileBytes,
    netlist: &Netlist,
    table: &PinTable,
) -> Result<(), AllocError>
    requires fits { Fits netlist.now table.now }
    requires pins { PinsCanBeWritten table.now }
    ensures { OnOk result (out.new ≡ out.old ++ text_of (components_layout (map (component_of table.now) (used_models netlist.now.instances)))) }
{
    let listed = table.as_slice();
    let names = model_names(alloc, listed)?;
    let used = used_models(alloc, netlist.models(), netlist.nodes())?;
    let models = used.texts();
    for model in models {
        let pins = pins_of(&names, listed, model);
        component(alloc, out, model, pins)?;
    }
    Ok(())
}

/// What stands between the entity and the components.
fn head(out: &mut FileBytes, name: &Text) -> Result<(), AllocError>
    ensures { OnOk result (out.new ≡ out.old ++ text_of (head_layout name.now)) }
{
    out.append(b"\narchitecture structural of ")?;
    out.append(name.as_bytes())?;
    out.append(b" is\n")
}

/// The declarations of signals.
fn signals(out: &mut FileBytes, names: &[Name]) -> Result<(), AllocError>
    ensures { OnOk result (out.new ≡ out.old ++ text_of (signals_layout (map (λ n. n.text) names.now))) }
{
    for name in names {
        out.append(b"signal ")?;
        out.append(name.text.as_bytes())?;
        out.append(b" : bit;\n")?;
    }
    Ok(())
}

/// The text up to the components.
fn front(
    alloc: Global,
    out: &mut FileBytes,
    netlist: &Netlist,
    table: &PinTable,
) -> Result<(), AllocError>
    requires fits { Fits netlist.now table.now }
    requires pins { PinsCanBeWritten table.now }
    requires some { 0 < length netlist.now.ports }
    ensures { OnOk result (out.new ≡ out.old ++ front_text netlist.now table.now) }
{
    entity(alloc, out, netlist.name(), netlist.ports())?;
    head(out, netlist.name())?;
    components(alloc, out, netlist, table)
}

/// The text from the signals on.
fn body(alloc: Global, out: &mut FileBytes, netlist: &Netlist) -> Result<(), AllocError>
    requires { All (λ i. 0 < length i.pins) netlist.now.instances }
    ensures { OnOk result (out.new ≡ out.old ++ body_text netlist.now) }
{
    let (nets, with_port) = net_names(alloc, netlist)?;
    signals(out, &nets[with_port..])?;
    out.append(b"begin\n")?;
    instances(alloc, out, netlist, &nets)?;
    out.append(b"end structural;\n")
}

/// The text of a netlist whose names can be written.
fn text(alloc: Global, netlist: &Netlist, table: &PinTable) -> Result<FileBytes, AllocError>
    requires fits { Fits netlist.now table.now }
    requires pins { PinsCanBeWritten table.now }
    requires named { CanBeNamed netlist.now }
    ensures { IfOk result (λ bytes. bytes ≡ text_of (layout netlist.now table.now)) }
{
    let mut out = FileBytes::new(Vec::new(alloc));
    front(alloc, &mut out, netlist, table)?;
    body(alloc, &mut out, netlist)?;
    Ok(out)
}

/// Writes a netlist as a structural text, by a table that lists its models: its entity, an architecture `structural` with a component
/// for each model that an instance has and a signal for each class without a port, and its instances, whose pins are joined to
/// these and to ports. Ports stand in the order of names, components in the order in which instances first have their models, and
/// instances in their order; bits of one text are one vector, from the greatest down to the least. A class with ports is named by
/// the least of them; a signal by `n` and a number, from 0 on in the order of classes, without those that make a port's text.
///
/// It is refused by `BadMap` exactly where the names can't be written: there is no port; the bits of a port have a hole, or different
/// directions, or a text is both a scalar and a vector; or the name of the netlist, of a port, of an instance or of a model is no
/// identifier in lower case, or is reserved. How long names are is not asked.
///
/// Takes memory for the text and the names of classes, and time for the text and, for each name, the logarithm of their number.
pub fn write_vst(
    alloc: Global,
    netlist: &Netlist,
    table: &PinTable,
) -> Result<FileBytes, WriteError>
    requires fits { Fits netlist.now table.now }
    requires pins { PinsCanBeWritten table.now }
    ensures written { IfOk result (λ bytes. bytes ≡ text_of (layout netlist.now table.now)) }
    ensures named { OnOk result (CanBeNamed netlist.now) }
    ensures refused { IfErr result (λ e. IsWriteRefusal netlist.now e) }
{
    if !can_be_named(netlist) {
        return Err(WriteError::BadMap);
    }
    let bytes = text(alloc, netlist, table)?;
    Ok(bytes)
}
