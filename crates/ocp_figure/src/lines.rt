// Whether two figures are the same, line by line.
ghost use Rattle.std.specs.Prelude.{◌≡◌, ◌↔◌, IsTrue};

use crate::labels::{same_contact, same_name};
use ap_io::Figure;
use sym_geom::{Connector, Instance, Item, Layer, Rect, Reference, Segment, Via};

/// Whether two pieces of wire have the same ends in the same order.
fn same_ends(a: &Segment, b: &Segment) -> bool
    ensures { IsTrue result ↔ ((a.now.x1 ≡ b.now.x1) × (a.now.y1 ≡ b.now.y1) × (a.now.x2 ≡ b.now.x2) × (a.now.y2 ≡ b.now.y2)) }
{
    a.x1 == b.x1 && a.y1 == b.y1 && a.x2 == b.x2 && a.y2 == b.y2
}

/// Whether two layers are the same.
fn same_layer(a: &Layer, b: &Layer) -> bool
    ensures { IsTrue result ↔ (a.now ≡ b.now) }
{
    a == b
}

/// Whether two pieces of wire run the same way, on the same layer and as wide.
fn same_run(a: &Segment, b: &Segment) -> bool
    ensures { IsTrue result ↔ ((a.now.direction ≡ b.now.direction) × (a.now.width ≡ b.now.width) × (a.now.layer ≡ b.now.layer)) }
{
    a.direction == b.direction && a.width == b.width && same_layer(&a.layer, &b.layer)
}

/// Whether two pieces of wire are the same.
fn same_segment(a: &Segment, b: &Segment) -> bool
    ensures { IsTrue result ↔ (a.now ≡ b.now) }
{
    same_ends(a, b) && same_run(a, b) && same_name(&a.name, &b.name)
}

/// Whether two connectors lie at the same point, as wide, with the same index.
fn same_place(a: &Connector, b: &Connector) -> bool
    ensures { IsTrue result ↔ ((a.now.x ≡ b.now.x) × (a.now.y ≡ b.now.y) × (a.now.width ≡ b.now.width) × (a.now.index ≡ b.now.index)) }
{
    a.x == b.x && a.y == b.y && a.width == b.width && a.index == b.index
}

/// Whether two connectors are the same.
fn same_connector(a: &Connector, b: &Connector) -> bool
    ensures { IsTrue result ↔ (a.now ≡ b.now) }
{
    same_place(a, b)
        && a.side == b.side
        && same_layer(&a.layer, &b.layer)
        && same_name(&a.name, &b.name)
}

/// Whether two contacts at points are the same.
fn same_via(a: &Via, b: &Via) -> bool
    ensures { IsTrue result ↔ (a.now ≡ b.now) }
{
    a.x == b.x && a.y == b.y && same_contact(&a.contact, &b.contact) && same_name(&a.name, &b.name)
}

/// Whether two instances are the same.
fn same_instance(a: &Instance, b: &Instance) -> bool
    ensures { IsTrue result ↔ (a.now ≡ b.now) }
{
    a.x == b.x
        && a.y == b.y
        && a.model.is_same(&b.model)
        && a.name.is_same(&b.name)
        && a.transform == b.transform
}

/// Whether two points with names are the same.
fn same_reference(a: &Reference, b: &Reference) -> bool
    ensures { IsTrue result ↔ (a.now ≡ b.now) }
{
    a.x == b.x && a.y == b.y && a.word.is_same(&b.word) && a.name.is_same(&b.name)
}

/// Whether two lines are the same.
fn same_item(a: &Item, b: &Item) -> bool
    ensures { IsTrue result ↔ (a.now ≡ b.now) }
{
    match a {
        Item::Segment(one) => match b {
            Item::Segment(other) => same_segment(one, other),
            _ => false,
        },
        Item::Connector(one) => match b {
            Item::Connector(other) => same_connector(one, other),
            _ => false,
        },
        Item::Via(one) => match b {
            Item::Via(other) => same_via(one, other),
            _ => false,
        },
        Item::Instance(one) => match b {
            Item::Instance(other) => same_instance(one, other),
            _ => false,
        },
        Item::Reference(one) => match b {
            Item::Reference(other) => same_reference(one, other),
            _ => false,
        },
        Item::Remark(one) => match b {
            Item::Remark(other) => one.is_same(other),
            _ => false,
        },
    }
}

/// Whether two lists of lines are the same, line by line.
fn same_items(a: &[Item], b: &[Item]) -> bool
    ensures { IsTrue result ↔ (a.now ≡ b.now) }
{
    if a.len() != b.len() {
        return false;
    }
    for k in 0..a.len() {
        if !same_item(&a[k], &b[k]) {
            return false;
        }
    }
    true
}

/// Whether two boxes have the same edges.
fn same_edges(a: &Rect, b: &Rect) -> bool
    ensures { IsTrue result ↔ ((a.now.x1 ≡ b.now.x1) × (a.now.y1 ≡ b.now.y1) × (a.now.x2 ≡ b.now.x2) × (a.now.y2 ≡ b.now.y2)) }
{
    a.x1 == b.x1 && a.y1 == b.y1 && a.x2 == b.x2 && a.y2 == b.y2
}

/// Whether two boxes are the same.
fn same_box(a: &Rect, b: &Rect) -> bool
    ensures { IsTrue result ↔ (a.now ≡ b.now) }
{
    same_edges(a, b)
}

/// Whether two figures have the same name, the same box and the same lines in the same order.
pub(crate) fn same_figure(a: &Figure, b: &Figure) -> bool
    ensures { IsTrue result ↔ (a.now ≡ b.now) }
{
    if !same_name(&a.name, &b.name) {
        return false;
    }
    same_box(&a.bounds, &b.bounds) && same_items(a.items.as_slice(), b.items.as_slice())
}
