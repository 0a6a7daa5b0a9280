// The writer: one line for each item, in the one spelling.
ghost use Rattle.std.specs.Prelude.{◌≡◌, ◌++◌, IfOk, OnOk};
ghost use Rattle.std.specs.Fmt.{signed_decimal};
ghost use Rattle.ap_io.specs.Spelling.{field as field_text, bit_text, name_text, level_text, layer_text, direction_text, side_text, contact_text, transform_text, segment_text, connector_text, via_text, instance_text, reference_text, remark_text, item_text, head_text, text_of};

use crate::Figure;
use std::alloc::{AllocError, Global};
use sym_geom::{
    Connector, Contact, Direction, Instance, Item, Layer, Level, Rect, Reference, Segment, Side,
    Transform, Via,
};
use vlsi_base::{FileBytes, Name, Text};

/// A number.
fn number(alloc: Global, out: &mut FileBytes, n: &i64) -> Result<(), AllocError>
    ensures { OnOk result (out.new ≡ out.old ++ signed_decimal n.now) }
{
    let text = n.to_string(alloc)?;
    out.append(text.as_bytes())
}

/// A number and a comma.
fn field(alloc: Global, out: &mut FileBytes, n: &i64) -> Result<(), AllocError>
    ensures { OnOk result (out.new ≡ out.old ++ field_text n.now) }
{
    number(alloc, out, n)?;
    out.append(b",")
}

/// The number of a bit, in parentheses.
fn bit(alloc: Global, out: &mut FileBytes, k: u32) -> Result<(), AllocError>
    ensures { OnOk result (out.new ≡ out.old ++ bit_text (Some k)) }
{
    out.append(b"(")?;
    let text = k.to_string(alloc)?;
    out.append(text.as_bytes())?;
    out.append(b")")
}

/// A name, or a star.
fn name(alloc: Global, out: &mut FileBytes, name: &Option<Name>) -> Result<(), AllocError>
    ensures { OnOk result (out.new ≡ out.old ++ name_text name.now) }
{
    match name {
        None => out.append(b"*"),
        Some(name) => {
            out.append(name.text.as_bytes())?;
            match name.bit {
                None => Ok(()),
                Some(k) => bit(alloc, out, k),
            }
        }
    }
}

/// The digit of a level.
fn level(out: &mut FileBytes, level: Level) -> Result<(), AllocError>
    ensures { OnOk result (out.new ≡ out.old ++ level_text level) }
{
    match level {
        Level::One => out.append(b"1"),
        Level::Two => out.append(b"2"),
        Level::Three => out.append(b"3"),
        Level::Four => out.append(b"4"),
        Level::Five => out.append(b"5"),
        Level::Six => out.append(b"6"),
        Level::Seven => out.append(b"7"),
        Level::Eight => out.append(b"8"),
        Level::Nine => out.append(b"9"),
    }
}

/// A layer.
fn layer(out: &mut FileBytes, layer: Layer) -> Result<(), AllocError>
    ensures { OnOk result (out.new ≡ out.old ++ layer_text layer) }
{
    match layer {
        Layer::NWell => out.append(b"NWELL"),
        Layer::PWell => out.append(b"PWELL"),
        Layer::NTie => out.append(b"NTIE"),
        Layer::PTie => out.append(b"PTIE"),
        Layer::NDif => out.append(b"NDIF"),
        Layer::PDif => out.append(b"PDIF"),
        Layer::NTrans => out.append(b"NTRANS"),
        Layer::PTrans => out.append(b"PTRANS"),
        Layer::Poly => out.append(b"POLY"),
        Layer::TPoly => out.append(b"TPOLY"),
        Layer::Alu(k) => {
            out.append(b"ALU")?;
            level(out, k)
        }
        Layer::Calu(k) => {
            out.append(b"CALU")?;
            level(out, k)
        }
        Layer::Talu(k) => {
            out.append(b"TALU")?;
            level(out, k)
        }
    }
}

/// Which way a segment runs.
fn direction(out: &mut FileBytes, direction: Direction) -> Result<(), AllocError>
    ensures { OnOk result (out.new ≡ out.old ++ direction_text direction) }
{
    match direction {
        Direction::Up => out.append(b"UP"),
        Direction::Down => out.append(b"DOWN"),
        Direction::Left => out.append(b"LEFT"),
        Direction::Right => out.append(b"RIGHT"),
    }
}

/// The side of a connector.
fn side(out: &mut FileBytes, side: Side) -> Result<(), AllocError>
    ensures { OnOk result (out.new ≡ out.old ++ side_text side) }
{
    match side {
        Side::North => out.append(b"NORTH"),
        Side::South => out.append(b"SOUTH"),
        Side::East => out.append(b"EAST"),
        Side::West => out.append(b"WEST"),
    }
}

/// The word of a contact.
fn contact(out: &mut FileBytes, contact: &Contact) -> Result<(), AllocError>
    ensures { OnOk result (out.new ≡ out.old ++ contact_text contact.now) }
{
    match contact {
        Contact::Via1 => out.append(b"CONT_VIA"),
        Contact::Via2 => out.append(b"CONT_VIA2"),
        Contact::Via3 => out.append(b"CONT_VIA3"),
        Contact::Via4 => out.append(b"CONT_VIA4"),
        Contact::Via5 => out.append(b"CONT_VIA5"),
        Contact::Other(word) => out.append(word.as_bytes()),
    }
}

/// How an instance is turned.
fn transform(out: &mut FileBytes, transform: Transform) -> Result<(), AllocError>
    ensures { OnOk result (out.new ≡ out.old ++ transform_text transform) }
{
    match transform {
        Transform::NoSym => out.append(b"NOSYM"),
        Transform::SymX => out.append(b"SYM_X"),
        Transform::SymY => out.append(b"SYM_Y"),
        Transform::SymXY => out.append(b"SYMXY"),
    }
}

/// An S line.
fn segment(alloc: Global, out: &mut FileBytes, s: &Segment) -> Result<(), AllocError>
    ensures { OnOk result (out.new ≡ out.old ++ segment_text s.now) }
{
    out.append(b"S ")?;
    field(alloc, out, &s.x1)?;
    field(alloc, out, &s.y1)?;
    field(alloc, out, &s.x2)?;
    field(alloc, out, &s.y2)?;
    field(alloc, out, &s.width)?;
    name(alloc, out, &s.name)?;
    out.append(b",")?;
    direction(out, s.direction)?;
    out.append(b",")?;
    layer(out, s.layer)?;
    out.append(b"\n")?;
    Ok(())
}

/// A C line.
fn connector(alloc: Global, out: &mut FileBytes, c: &Connector) -> Result<(), AllocError>
    ensures { OnOk result (out.new ≡ out.old ++ connector_text c.now) }
{
    out.append(b"C ")?;
    field(alloc, out, &c.x)?;
    field(alloc, out, &c.y)?;
    field(alloc, out, &c.width)?;
    name(alloc, out, &c.name)?;
    out.append(b",")?;
    field(alloc, out, &c.index)?;
    side(out, c.side)?;
    out.append(b",")?;
    layer(out, c.layer)?;
    out.append(b"\n")?;
    Ok(())
}

/// A V line.
fn via(alloc: Global, out: &mut FileBytes, v: &Via) -> Result<(), AllocError>
    ensures { OnOk result (out.new ≡ out.old ++ via_text v.now) }
{
    out.append(b"V ")?;
    field(alloc, out, &v.x)?;
    field(alloc, out, &v.y)?;
    contact(out, &v.contact)?;
    out.append(b",")?;
    name(alloc, out, &v.name)?;
    out.append(b"\n")?;
    Ok(())
}

/// An I line.
fn instance(alloc: Global, out: &mut FileBytes, i: &Instance) -> Result<(), AllocError>
    ensures { OnOk result (out.new ≡ out.old ++ instance_text i.now) }
{
    out.append(b"I ")?;
    field(alloc, out, &i.x)?;
    field(alloc, out, &i.y)?;
    out.append(i.model.as_bytes())?;
    out.append(b",")?;
    out.append(i.name.as_bytes())?;
    out.append(b",")?;
    transform(out, i.transform)?;
    out.append(b"\n")?;
    Ok(())
}

/// An R line.
fn reference(alloc: Global, out: &mut FileBytes, r: &Reference) -> Result<(), AllocError>
    ensures { OnOk result (out.new ≡ out.old ++ reference_text r.now) }
{
    out.append(b"R ")?;
    field(alloc, out, &r.x)?;
    field(alloc, out, &r.y)?;
    out.append(r.word.as_bytes())?;
    out.append(b",")?;
    out.append(r.name.as_bytes())?;
    out.append(b"\n")?;
    Ok(())
}

/// A B line.
fn remark(out: &mut FileBytes, text: &Text) -> Result<(), AllocError>
    ensures { OnOk result (out.new ≡ out.old ++ remark_text text.now) }
{
    out.append(b"B ")?;
    out.append(text.as_bytes())?;
    out.append(b"\n")
}

/// The line of an item.
fn line(alloc: Global, out: &mut FileBytes, item: &Item) -> Result<(), AllocError>
    ensures { OnOk result (out.new ≡ out.old ++ item_text item.now) }
{
    match item {
        Item::Segment(s) => segment(alloc, out, s),
        Item::Connector(c) => connector(alloc, out, c),
        Item::Via(v) => via(alloc, out, v),
        Item::Instance(i) => instance(alloc, out, i),
        Item::Reference(r) => reference(alloc, out, r),
        Item::Remark(text) => remark(out, text),
    }
}

/// The first three lines.
fn head(
    alloc: Global,
    out: &mut FileBytes,
    figure: &Option<Name>,
    bounds: &Rect,
) -> Result<(), AllocError>
    ensures { OnOk result (out.new ≡ out.old ++ head_text figure.now bounds.now) }
{
    out.append(b"V ALLIANCE : 6\nH ")?;
    name(alloc, out, figure)?;
    out.append(b",P,01/01/2000,100\nA ")?;
    field(alloc, out, &bounds.x1)?;
    field(alloc, out, &bounds.y1)?;
    field(alloc, out, &bounds.x2)?;
    number(alloc, out, &bounds.y2)?;
    out.append(b"\n")?;
    Ok(())
}

/// The text of a figure in the one spelling: version 6, the date 01/01/2000, the scale 100, `a(3)` for a bit, no blank
/// lines, LF ends. Takes memory for the text alone.
pub fn write_ap(alloc: Global, f: &Figure) -> Result<FileBytes, AllocError>
    ensures { IfOk result (λ bytes. bytes ≡ text_of f.now) }
{
    let mut out = FileBytes::new(Vec::new(alloc));
    head(alloc, &mut out, &f.name, &f.bounds)?;
    for item in f.items.as_slice() {
        line(alloc, &mut out, item)?;
    }
    out.append(b"EOF\n")?;
    Ok(out)
}
