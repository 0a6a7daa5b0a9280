// The items of lines without a fault.
ghost use Rattle.std.specs.Prelude.{◌≡◌, ◌==◌, true, IfOk, IsSome, length, take, if◌then◌else◌};
ghost use Rattle.ap_io.specs.Fields.{at, is_index, is_label, label_of};
ghost use Rattle.ap_io.specs.Words.{direction_of, layer_of, side_of, transform_of};
ghost use Rattle.ap_io.specs.Items.{IsSegment, IsConnector, IsVia, IsInstance, IsReference, IsBox};
ghost use Rattle.ap_io.specs.LineFaults.{far_coordinate, is_via};

use crate::Scale;
use crate::fields::Fields;
use crate::names::{label, lower};
use crate::numbers::{coordinate, index};
use crate::words::{contact_of, direction_of, layer_of, side_of, transform_of};
use std::alloc::{AllocError, Global};
use sym_geom::{Connector, Instance, Rect, Reference, Segment, Via};
use vlsi_base::{Name, Text};

/// The segment of an S line. Takes memory for its name.
pub fn segment(alloc: Global, scale: Scale, fields: &Fields) -> Result<Segment, AllocError>
    requires near { far_coordinate scale (take 5 fields.now) ≡ None }
    requires name { is_label (at fields.now 5) ≡ true }
    requires direction { IsSome (direction_of (at fields.now 6)) }
    requires layer { IsSome (layer_of (at fields.now 7)) }
    ensures { IfOk result (λ s. IsSegment scale fields.now s) }
{
    let name = label(alloc, fields.at(5))?;
    Ok(Segment {
        x1: coordinate(scale, fields.at(0)),
        y1: coordinate(scale, fields.at(1)),
        x2: coordinate(scale, fields.at(2)),
        y2: coordinate(scale, fields.at(3)),
        width: coordinate(scale, fields.at(4)),
        name,
        direction: direction_of(fields.at(6)).unwrap(),
        layer: layer_of(fields.at(7)).unwrap(),
    })
}

/// The connector of a C line. Takes memory for its name.
pub fn connector(alloc: Global, scale: Scale, fields: &Fields) -> Result<Connector, AllocError>
    requires near { far_coordinate scale (take 3 fields.now) ≡ None }
    requires name { is_label (at fields.now 3) ≡ true }
    requires index { is_index (at fields.now 4) ≡ true }
    requires side { IsSome (side_of (at fields.now 5)) }
    requires layer { IsSome (layer_of (at fields.now 6)) }
    ensures { IfOk result (λ c. IsConnector scale fields.now c) }
{
    let name = label(alloc, fields.at(3))?;
    Ok(Connector {
        x: coordinate(scale, fields.at(0)),
        y: coordinate(scale, fields.at(1)),
        width: coordinate(scale, fields.at(2)),
        name,
        index: index(fields.at(4)),
        side: side_of(fields.at(5)).unwrap(),
        layer: layer_of(fields.at(6)).unwrap(),
    })
}

/// The name of a V line, which may leave it out. Takes memory for its bytes.
fn via_name(alloc: Global, fields: &Fields) -> Result<Option<Name>, AllocError>
    requires { is_via fields.now ≡ true }
    ensures { IfOk result (λ name. name ≡ (if length fields.now == 3 then None else label_of (at fields.now 3))) }
{
    if fields.count() == 3 {
        Ok(None)
    } else {
        label(alloc, fields.at(3))
    }
}

/// The contact of a V line. Takes memory for its name, and for its word where it joins no metals.
pub fn via(alloc: Global, scale: Scale, fields: &Fields) -> Result<Via, AllocError>
    requires near { far_coordinate scale (take 2 fields.now) ≡ None }
    requires form { is_via fields.now ≡ true }
    ensures { IfOk result (λ v. IsVia scale fields.now v) }
{
    let contact = contact_of(alloc, fields.at(2))?;
    let name = via_name(alloc, fields)?;
    Ok(Via {
        x: coordinate(scale, fields.at(0)),
        y: coordinate(scale, fields.at(1)),
        contact,
        name,
    })
}

/// The instance of an I line. Takes memory for its names.
pub fn instance(alloc: Global, scale: Scale, fields: &Fields) -> Result<Instance, AllocError>
    requires near { far_coordinate scale (take 2 fields.now) ≡ None }
    requires listed { IsSome (transform_of (at fields.now 4)) }
    ensures { IfOk result (λ i. IsInstance scale fields.now i) }
{
    let model = lower(alloc, fields.at(2))?;
    let name = lower(alloc, fields.at(3))?;
    Ok(Instance {
        x: coordinate(scale, fields.at(0)),
        y: coordinate(scale, fields.at(1)),
        model,
        name,
        transform: transform_of(fields.at(4)).unwrap(),
    })
}

/// The named point of an R line. Takes memory for its word and its name.
pub fn reference(alloc: Global, scale: Scale, fields: &Fields) -> Result<Reference, AllocError>
    requires { far_coordinate scale (take 2 fields.now) ≡ None }
    ensures { IfOk result (λ r. IsReference scale fields.now r) }
{
    let word = lower(alloc, fields.at(2))?;
    let name = Text::from_bytes(alloc, fields.at(3))?;
    Ok(Reference {
        x: coordinate(scale, fields.at(0)),
        y: coordinate(scale, fields.at(1)),
        word,
        name,
    })
}

/// The box of the A line. Takes no memory.
pub fn bounds(scale: Scale, fields: &Fields) -> Rect
    requires { far_coordinate scale (take 4 fields.now) ≡ None }
    ensures { IsBox scale fields.now result }
{
    Rect {
        x1: coordinate(scale, fields.at(0)),
        y1: coordinate(scale, fields.at(1)),
        x2: coordinate(scale, fields.at(2)),
        y2: coordinate(scale, fields.at(3)),
    }
}
