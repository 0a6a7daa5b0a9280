// What lines draw.
ghost use Rattle.std.specs.Prelude.{◌≡◌, ◌++◌, ◌∷◌, [], IfOk, OnOk, All};
ghost use Rattle.sym_geom.specs.declared.item.Item.TheVariants as item;
ghost use Rattle.cougar_extract.specs.Stages.{HasCellEdges};
ghost use Rattle.sym_geom.specs.Items.{IsReadySegment, lower_metal as lower_metal_of};
ghost use Rattle.sym_shapes.specs.Ready.{IsReady, IsReadyConnector};
ghost use Rattle.real_boxes.specs.Marks.{connector_core as core_of_connector, drawn_marks, is_upright as runs_upright, item_marks, metal_above, segment_core as core_of_segment, shortened as shortened_rect};

use crate::words::{contact_word, layer_word};
use s2r_cif::lower_metal;
use std::alloc::{AllocError, Global};
use sym_geom::{
    Connector, Contact, Direction, Item, Rect, Segment, Via, WIRE_OVERHANG, connector_rect,
    metal_of, segment_rect,
};
use vlsi_base::Text;

/// What a line draws on its layer: the line of a segment, the square of a connector, or the point of a contact.
#[derive(Drop)]
pub struct Mark {
    /// The word of its layer or contact.
    pub word: Text,
    /// The metal that it shows, from 1 to 6, if it does; of a via the lower of the two that it joins.
    pub metal: Option<u8>,
    /// The metal above, which a via shows too.
    pub above: Option<u8>,
    /// It runs upright, so that its ends lie above one another.
    pub upright: bool,
    /// The rectangle between its ends: without the overhang of a wire.
    pub core: Rect,
}

/// Whether a segment runs upright.
fn is_upright(direction: Direction) -> bool
    ensures { result ≡ runs_upright direction }
{
    match direction {
        Direction::Up | Direction::Down => true,
        Direction::Left | Direction::Right => false,
    }
}

/// A rectangle without the overhang of a wire at its ends.
fn shortened(upright: bool, rect: &Rect) -> Rect
    requires { HasCellEdges rect.now }
    ensures { result ≡ shortened_rect upright rect.now }
{
    let overhang = i64::from(WIRE_OVERHANG);
    if upright {
        Rect {
            x1: rect.x1,
            y1: rect.y1 + overhang,
            x2: rect.x2,
            y2: rect.y2 - overhang,
        }
    } else {
        Rect {
            x1: rect.x1 + overhang,
            y1: rect.y1,
            x2: rect.x2 - overhang,
            y2: rect.y2,
        }
    }
}

/// The line between the ends of a segment, as wide as it says.
pub fn segment_core(segment: &Segment) -> Rect
    requires { IsReadySegment segment.now }
    ensures value { result ≡ core_of_segment segment.now }
    ensures edges { HasCellEdges result }
{
    shortened(is_upright(segment.direction), &segment_rect(segment))
}

/// The rectangle of a connector, as that of an upright segment.
pub fn connector_core(connector: &Connector) -> Rect
    requires { IsReadyConnector connector.now }
    ensures value { result ≡ core_of_connector connector.now }
    ensures edges { HasCellEdges result }
{
    shortened(true, &connector_rect(connector))
}

fn segment_mark(alloc: Global, segment: &Segment) -> Result<Mark, AllocError>
    requires { IsReady (item.Segment segment.now) }
    ensures { IfOk result (λ m. m ∷ [] ≡ item_marks (item.Segment segment.now)) }
{
    Ok(Mark {
        word: layer_word(alloc, segment.layer)?,
        metal: metal_of(segment.layer),
        above: None,
        upright: is_upright(segment.direction),
        core: segment_core(segment),
    })
}

fn connector_mark(alloc: Global, connector: &Connector) -> Result<Mark, AllocError>
    requires { IsReady (item.Connector connector.now) }
    ensures { IfOk result (λ m. m ∷ [] ≡ item_marks (item.Connector connector.now)) }
{
    Ok(Mark {
        word: layer_word(alloc, connector.layer)?,
        metal: metal_of(connector.layer),
        above: None,
        upright: true,
        core: connector_core(connector),
    })
}

/// The upper of the metals that a contact joins, if it joins two.
fn upper_metal(contact: &Contact) -> Option<u8>
    ensures { result ≡ metal_above (lower_metal_of contact.now) }
{
    match contact {
        Contact::Via1 => Some(2),
        Contact::Via2 => Some(3),
        Contact::Via3 => Some(4),
        Contact::Via4 => Some(5),
        Contact::Via5 => Some(6),
        Contact::Other(_) => None,
    }
}

fn contact_mark(alloc: Global, via: &Via) -> Result<Mark, AllocError>
    ensures { IfOk result (λ m. m ∷ [] ≡ item_marks (item.Via via.now)) }
{
    Ok(Mark {
        word: contact_word(alloc, &via.contact)?,
        metal: lower_metal(&via.contact),
        above: upper_metal(&via.contact),
        upright: true,
        core: Rect {
            x1: via.x,
            y1: via.y,
            x2: via.x,
            y2: via.y,
        },
    })
}

/// Puts what a line draws behind what is there.
fn put_mark(alloc: Global, marks: &mut Vec<Mark>, item: &Item) -> Result<(), AllocError>
    requires { IsReady item.now }
    ensures { OnOk result (marks.new.items ≡ marks.old.items ++ item_marks item.now) }
{
    let mark = match item {
        Item::Segment(segment) => segment_mark(alloc, segment)?,
        Item::Connector(connector) => connector_mark(alloc, connector)?,
        Item::Via(via) => contact_mark(alloc, via)?,
        Item::Instance(_) | Item::Reference(_) | Item::Remark(_) => return Ok(()),
    };
    marks.push(mark)?;
    Ok(())
}

/// What lines draw, in their order.
pub fn drawn_by(alloc: Global, items: &[Item]) -> Result<Vec<Mark>, AllocError>
    requires { All IsReady items.now }
    ensures { IfOk result (λ marks. marks.items ≡ drawn_marks items.now) }
{
    let mut marks = Vec::new(alloc);
    for item in items {
        put_mark(alloc, &mut marks, item)?;
    }
    Ok(marks)
}
