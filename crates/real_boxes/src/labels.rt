// The texts of the connectors of a layout.
ghost use Rattle.std.specs.Prelude.{◌≡◌, ◌++◌, ◌≤◌, ◌+ℤ◌, ◌*ℤ◌, pos, All, IfOk, IfSome, OnOk};
ghost use Rattle.ap_io.specs.Spelling.{layer_text};
ghost use Rattle.cougar_extract.specs.Stages.{HasCellEdges, IsCellEdge};
ghost use Rattle.sym_geom.specs.Items.{IsReadySegment};
ghost use Rattle.sym_geom.specs.declared.item.Item.TheVariants as item;
ghost use Rattle.sym_shapes.specs.Ready.{IsReady};
ghost use Rattle.s2r_cif.specs.Cif.{number_text};
ghost use Rattle.real_table.specs.declared.table.TheConstants.{MOST_UNIT};
ghost use Rattle.real_boxes.specs.File.{entry_label, item_labels, item_port as port_of, label_line as line_of_label, label_name as name_of_label, labels_by, labels_of as labels_of_lines, layer_end, named_port as port_with, place_text};

use crate::mark::{connector_core, segment_core};
use crate::words::layer_word;
use real_table::Entry;
use s2r_cif::scaled;
use std::alloc::{AllocError, Global};
use sym_geom::{Item, Layer, Rect, Segment};
use vlsi_base::{FileBytes, Name, Text};

/// A number behind a blank.
pub fn number(alloc: Global, out: &mut FileBytes, n: &i64) -> Result<(), AllocError>
    ensures { OnOk result (out.new ≡ out.old ++ number_text n.now) }
{
    let text = n.to_string(alloc)?;
    out.append(b" ")?;
    out.append(text.as_bytes())
}

/// A name, its bit in brackets.
pub fn label_name(alloc: Global, out: &mut FileBytes, name: &Name) -> Result<(), AllocError>
    ensures { OnOk result (out.new ≡ out.old ++ name_of_label name.now) }
{
    out.append(name.text.as_bytes())?;
    let Some(bit) = name.bit else {
        return Ok(());
    };
    let digits = bit.to_string(alloc)?;
    out.append(b"[")?;
    out.append(digits.as_bytes())?;
    out.append(b"]")
}

/// A connector that has a name.
#[derive(Drop)]
pub struct Port {
    /// The word of its layer.
    pub word: Text,
    pub name: Name,
    /// The rectangle between its ends.
    pub rect: Rect,
}

/// Twice what lies in the middle of two edges, in real units.
fn middle(scale: u32, from: &i64, to: &i64) -> i64
    requires scale { scale ≤ MOST_UNIT }
    requires from_fits { IsCellEdge from.now }
    requires to_fits { IsCellEdge to.now }
    ensures { result ≡ pos scale *ℤ (from.now +ℤ to.now) }
{
    scaled(scale, &(*from + *to))
}

/// The point in the middle of a connector.
fn place(alloc: Global, out: &mut FileBytes, scale: u32, rect: &Rect) -> Result<(), AllocError>
    requires scale { scale ≤ MOST_UNIT }
    requires edges { HasCellEdges rect.now }
    ensures { OnOk result (out.new ≡ out.old ++ place_text scale rect.now) }
{
    number(alloc, out, &middle(scale, &rect.x1, &rect.x2))?;
    number(alloc, out, &middle(scale, &rect.y1, &rect.y2))
}

/// The real layer of a text, which ends its line.
fn end_line(out: &mut FileBytes, real: &[u8]) -> Result<(), AllocError>
    ensures { OnOk result (out.new ≡ out.old ++ layer_end real.now) }
{
    out.append(b" ")?;
    out.append(real)?;
    out.append(b";\n")
}

/// The text of a connector in its middle.
fn label_line(
    alloc: Global,
    out: &mut FileBytes,
    scale: u32,
    port: &Port,
    real: &[u8],
) -> Result<(), AllocError>
    requires scale { scale ≤ MOST_UNIT }
    requires edges { HasCellEdges port.now.rect }
    ensures { OnOk result (out.new ≡ out.old ++ line_of_label scale port.now real.now) }
{
    out.append(b"94 ")?;
    label_name(alloc, out, &port.name)?;
    place(alloc, out, scale, &port.rect)?;
    end_line(out, real)
}

/// The text that a line of the table gives a connector, if it does.
fn put_label(
    alloc: Global,
    out: &mut FileBytes,
    scale: u32,
    port: &Port,
    entry: &Entry,
) -> Result<(), AllocError>
    requires scale { scale ≤ MOST_UNIT }
    requires edges { HasCellEdges port.now.rect }
    ensures { OnOk result (out.new ≡ out.old ++ entry_label scale port.now entry.now) }
{
    let Entry::Label { layer, real } = entry else {
        return Ok(());
    };
    if !layer.is_same(&port.word) {
        return Ok(());
    }
    label_line(alloc, out, scale, port, real.as_bytes())
}

/// The texts that lines of the table give a connector.
fn labels_of_port(
    alloc: Global,
    out: &mut FileBytes,
    scale: u32,
    port: &Port,
    entries: &[Entry],
) -> Result<(), AllocError>
    requires scale { scale ≤ MOST_UNIT }
    requires edges { HasCellEdges port.now.rect }
    ensures { OnOk result (out.new ≡ out.old ++ labels_by scale port.now entries.now) }
{
    for entry in entries {
        put_label(alloc, out, scale, port, entry)?;
    }
    Ok(())
}

/// A connector on a layer, if it has a name.
fn named_port(
    alloc: Global,
    layer: Layer,
    name: &Option<Name>,
    rect: Rect,
) -> Result<Option<Port>, AllocError>
    ensures value { IfOk result (λ port. port ≡ port_with (layer_text layer) name.now rect) }
    ensures same { IfOk result (λ port. IfSome port (λ p. p.rect ≡ rect)) }
{
    let Some(name) = name else {
        return Ok(None);
    };
    let word = layer_word(alloc, layer)?;
    let name = name.copy(alloc)?;
    Ok(Some(Port { word, name, rect }))
}

/// The connector that a segment is, if it is one: on CALU, and with a name.
fn segment_port(alloc: Global, segment: &Segment) -> Result<Option<Port>, AllocError>
    requires { IsReadySegment segment.now }
    ensures value { IfOk result (λ port. port ≡ port_of (item.Segment segment.now)) }
    ensures edges { IfOk result (λ port. IfSome port (λ p. HasCellEdges p.rect)) }
{
    match segment.layer {
        Layer::Calu(_) => named_port(alloc, segment.layer, &segment.name, segment_core(segment)),
        _ => Ok(None),
    }
}

/// The connector that a line draws, if it has a name.
fn item_port(alloc: Global, item: &Item) -> Result<Option<Port>, AllocError>
    requires { IsReady item.now }
    ensures value { IfOk result (λ port. port ≡ port_of item.now) }
    ensures edges { IfOk result (λ port. IfSome port (λ p. HasCellEdges p.rect)) }
{
    match item {
        Item::Segment(segment) => segment_port(alloc, segment),
        Item::Connector(connector) => named_port(
            alloc,
            connector.layer,
            &connector.name,
            connector_core(connector),
        ),
        _ => Ok(None),
    }
}

/// The texts of the connector that a line draws.
fn put_labels(
    alloc: Global,
    out: &mut FileBytes,
    scale: u32,
    entries: &[Entry],
    item: &Item,
) -> Result<(), AllocError>
    requires scale { scale ≤ MOST_UNIT }
    requires ready { IsReady item.now }
    ensures { OnOk result (out.new ≡ out.old ++ item_labels scale entries.now item.now) }
{
    match item_port(alloc, item)? {
        Some(port) => labels_of_port(alloc, out, scale, &port, entries),
        None => Ok(()),
    }
}

/// The texts of the connectors of lines.
pub fn labels(
    alloc: Global,
    out: &mut FileBytes,
    scale: u32,
    entries: &[Entry],
    items: &[Item],
) -> Result<(), AllocError>
    requires scale { scale ≤ MOST_UNIT }
    requires ready { All IsReady items.now }
    ensures { OnOk result (out.new ≡ out.old ++ labels_of_lines scale entries.now items.now) }
{
    for item in items {
        put_labels(alloc, out, scale, entries, item)?;
    }
    Ok(())
}
