// Boxes of a process as a CIF file.
ghost use Rattle.std.specs.Prelude.{◌≡◌, ◌++◌, ◌≤◌, ◌*ℤ◌, ◌+ℤ◌, ◌-ℤ◌, pos, IfOk, OnOk};
ghost use Rattle.cougar_extract.specs.Extracted.{IsReadyFigure};
ghost use Rattle.real_table.specs.declared.table.TheConstants.{MOST_UNIT};
ghost use Rattle.real_table.specs.Bounds.{IsProcessTable};
ghost use Rattle.real_boxes.specs.Bounds.{AreBoxes, HasEdges, IsEdge};
ghost use Rattle.real_boxes.specs.File.{box_line as line_of_box, centre_text, entry_layer, has_layer as is_there, heading_text, layers_from, line_on as line_of_layer, lines_on, name_line as line_of_name, process_text, size_text};

use crate::boxes::RealBox;
use crate::labels::{label_name, labels, number};
use ap_io::Figure;
use real_table::{Entry, ProcessTable};
use std::alloc::{AllocError, Global};
use sym_geom::Rect;
use vlsi_base::{FileBytes, Name};

/// Twice how far it is from one edge of a box to the other.
fn span(from: &i64, to: &i64) -> i64
    requires from_fits { IsEdge from.now }
    requires to_fits { IsEdge to.now }
    ensures { result ≡ pos 2 *ℤ (to.now -ℤ from.now) }
{
    2 * (*to - *from)
}

/// Twice what lies in the middle of two edges of a box.
fn middle(from: &i64, to: &i64) -> i64
    requires from_fits { IsEdge from.now }
    requires to_fits { IsEdge to.now }
    ensures { result ≡ from.now +ℤ to.now }
{
    *from + *to
}

/// How long a box is along x and along y.
fn sizes(alloc: Global, out: &mut FileBytes, rect: &Rect) -> Result<(), AllocError>
    requires { HasEdges rect.now }
    ensures { OnOk result (out.new ≡ out.old ++ size_text rect.now) }
{
    number(alloc, out, &span(&rect.x1, &rect.x2))?;
    number(alloc, out, &span(&rect.y1, &rect.y2))
}

/// The point in the middle of a box.
fn centre(alloc: Global, out: &mut FileBytes, rect: &Rect) -> Result<(), AllocError>
    requires { HasEdges rect.now }
    ensures { OnOk result (out.new ≡ out.old ++ centre_text rect.now) }
{
    number(alloc, out, &middle(&rect.x1, &rect.x2))?;
    number(alloc, out, &middle(&rect.y1, &rect.y2))
}

/// The line of a box.
fn box_line(alloc: Global, out: &mut FileBytes, rect: &Rect) -> Result<(), AllocError>
    requires { HasEdges rect.now }
    ensures { OnOk result (out.new ≡ out.old ++ line_of_box rect.now) }
{
    out.append(b"B")?;
    sizes(alloc, out, rect)?;
    centre(alloc, out, rect)?;
    out.append(b";\n")
}

/// The line of a box, if it is on this layer.
fn line_on(alloc: Global, out: &mut FileBytes, layer: u64, one: &RealBox) -> Result<(), AllocError>
    requires { HasEdges one.now.rect }
    ensures { OnOk result (out.new ≡ out.old ++ line_of_layer layer one.now) }
{
    if one.layer != layer {
        return Ok(());
    }
    box_line(alloc, out, &one.rect)
}

/// The lines of the boxes on a layer.
fn box_lines(
    alloc: Global,
    out: &mut FileBytes,
    layer: u64,
    boxes: &[RealBox],
) -> Result<(), AllocError>
    requires { AreBoxes boxes.now }
    ensures { OnOk result (out.new ≡ out.old ++ lines_on layer boxes.now) }
{
    for one in boxes {
        line_on(alloc, out, layer, one)?;
    }
    Ok(())
}

/// Whether some box is on a layer.
fn has_layer(layer: u64, boxes: &[RealBox]) -> bool
    ensures { result ≡ is_there layer boxes.now }
{
    boxes.iter().any(|one| one.layer == layer)
}

/// The layer of a line of the table, if it is the first that names it and some box is on it.
fn entry_layer_lines(
    alloc: Global,
    out: &mut FileBytes,
    layer: u64,
    entry: &Entry,
    boxes: &[RealBox],
) -> Result<(), AllocError>
    requires { AreBoxes boxes.now }
    ensures { OnOk result (out.new ≡ out.old ++ entry_layer layer entry.now boxes.now) }
{
    let Entry::Rule(rule) = entry else {
        return Ok(());
    };
    if !has_layer(layer, boxes) {
        return Ok(());
    }
    out.append(b"L ")?;
    out.append(rule.real.as_bytes())?;
    out.append(b";\n")?;
    box_lines(alloc, out, layer, boxes)
}

/// The layers that have boxes, in the order of the table.
fn layers(
    alloc: Global,
    out: &mut FileBytes,
    entries: &[Entry],
    boxes: &[RealBox],
) -> Result<(), AllocError>
    requires { AreBoxes boxes.now }
    ensures { OnOk result (out.new ≡ out.old ++ layers_from 0 entries.now boxes.now) }
{
    for layer in 0..entries.len() {
        entry_layer_lines(alloc, out, layer as u64, &entries[layer], boxes)?;
    }
    Ok(())
}

/// The line with the name of the layout, if it has one.
fn name_line(alloc: Global, out: &mut FileBytes, name: &Option<Name>) -> Result<(), AllocError>
    ensures { OnOk result (out.new ≡ out.old ++ line_of_name name.now) }
{
    let Some(name) = name else {
        return Ok(());
    };
    out.append(b"9 ")?;
    label_name(alloc, out, name)?;
    out.append(b";\n")
}

/// The lines before the layers.
fn heading(
    alloc: Global,
    out: &mut FileBytes,
    unit: u32,
    name: &Option<Name>,
) -> Result<(), AllocError>
    requires { unit ≤ MOST_UNIT }
    ensures { OnOk result (out.new ≡ out.old ++ heading_text unit name.now) }
{
    let halves = (2 * unit).to_string(alloc)?;
    out.append(b"DS 1 1 ")?;
    out.append(halves.as_bytes())?;
    out.append(b";\n")?;
    name_line(alloc, out, name)
}

/// The CIF file of the boxes of a layout: one symbol, called once, with the layers of the table and the texts of its connectors. Takes
/// memory for the file.
pub fn write_process(
    alloc: Global,
    table: &ProcessTable,
    figure: &Figure,
    boxes: &[RealBox],
) -> Result<FileBytes, AllocError>
    requires table { IsProcessTable table.now }
    requires figure { IsReadyFigure figure.now }
    requires boxes { AreBoxes boxes.now }
    ensures { IfOk result (λ bytes. bytes ≡ process_text table.now figure.now boxes.now) }
{
    let mut out = FileBytes::new(Vec::new(alloc));
    heading(alloc, &mut out, table.head.unit, &figure.name)?;
    layers(alloc, &mut out, table.entries.as_slice(), boxes)?;
    labels(
        alloc,
        &mut out,
        table.head.scale,
        table.entries.as_slice(),
        figure.items.as_slice(),
    )?;
    out.append(b"DF;\nC 1;\nE\n")?;
    Ok(out)
}
