// What is wrong with a line.
ghost use Rattle.std.specs.Prelude.{◌≡◌, ◌≤◌, true, length, take};
ghost use Rattle.std.specs.List.{list_all};
ghost use Rattle.ap_io.specs.Fields.{at, is_number};
ghost use Rattle.ap_io.specs.Words.{direction_of};
ghost use Rattle.ap_io.specs.LineFaults.{far_coordinate, limit_fault, is_along, is_segment, is_connector, is_via, is_instance, is_reference, is_head, is_box, segment_fault, connector_fault, via_fault, instance_fault, reference_fault, head_fault, box_fault};

use crate::fields::Fields;
use crate::names::{is_identifier, is_label, is_text, long_name};
use crate::numbers::{compare_numbers, is_index, is_width, reach};
use crate::words::{direction_of, is_contact, layer_of, scale_of, side_of, transform_of};
use crate::{LineFault, MOST_COORDINATE, Scale};
use sym_geom::Direction;

/// The first of some fields that is a coordinate or width over the greatest, as many fields as `count`.
pub fn far_coordinate(scale: Scale, fields: &Fields, count: usize) -> Option<u64>
    requires { count ≤ length fields.now }
    ensures { result ≡ far_coordinate scale (take count fields.now) }
{
    for number in 0..count {
        let reached = reach(scale, fields.at(number));
        if reached > MOST_COORDINATE {
            return Some(reached);
        }
    }
    None
}

/// The fault of a limit: names are looked at before coordinates.
pub fn limit_fault(long: Option<u64>, far: Option<u64>) -> Option<LineFault>
    ensures { result ≡ limit_fault long far }
{
    match (long, far) {
        (Some(length), _) => Some(LineFault::LongName(length)),
        (None, Some(reached)) => Some(LineFault::FarCoordinate(reached)),
        (None, None) => None,
    }
}

/// Whether the ends of a segment lie along one axis, as its direction says.
fn is_along(fields: &Fields) -> bool
    requires count { length fields.now ≡ 8 }
    requires numbers { list_all is_number (take 4 fields.now) ≡ true }
    ensures { result ≡ is_along (direction_of (at fields.now 6)) fields.now }
{
    match direction_of(fields.at(6)) {
        Some(Direction::Up) | Some(Direction::Down) => {
            compare_numbers(fields.at(0), fields.at(2)).is_eq()
        }
        Some(Direction::Left) | Some(Direction::Right) => {
            compare_numbers(fields.at(1), fields.at(3)).is_eq()
        }
        None => false,
    }
}

/// Whether the fields are `x1,y1,x2,y2,width,name,direction,layer`.
fn is_segment(fields: &Fields) -> bool
    ensures { result ≡ is_segment fields.now }
{
    fields.count() == 8
        && fields.begin_with_numbers(4)
        && is_width(fields.at(4))
        && is_label(fields.at(5))
        && is_along(fields)
}

/// Whether the fields are `x,y,width,name,index,side,layer`.
fn is_connector(fields: &Fields) -> bool
    ensures { result ≡ is_connector fields.now }
{
    fields.count() == 7
        && fields.begin_with_numbers(2)
        && is_width(fields.at(2))
        && is_label(fields.at(3))
        && is_index(fields.at(4))
        && side_of(fields.at(5)).is_some()
}

/// Whether the fields are `x,y,contact` or `x,y,contact,name`.
fn is_via(fields: &Fields) -> bool
    ensures { result ≡ is_via fields.now }
{
    (fields.count() == 3 || (fields.count() == 4 && is_label(fields.at(3))))
        && fields.begin_with_numbers(2)
        && is_contact(fields.at(2))
}

/// Whether the fields are `x,y,model,name,transform`, of a name that isn't taken.
fn is_instance(taken: bool, fields: &Fields) -> bool
    ensures { result ≡ is_instance taken fields.now }
{
    fields.count() == 5
        && fields.begin_with_numbers(2)
        && is_identifier(fields.at(2))
        && is_identifier(fields.at(3))
        && !taken
}

/// Whether the fields are `x,y,word,name`.
fn is_reference(fields: &Fields) -> bool
    ensures { result ≡ is_reference fields.now }
{
    fields.count() == 4
        && fields.begin_with_numbers(2)
        && is_identifier(fields.at(2))
        && is_text(fields.at(3))
}

/// Whether the fields are `name,P,date,scale`.
fn is_head(fields: &Fields) -> bool
    ensures { result ≡ is_head fields.now }
{
    fields.count() == 4
        && is_label(fields.at(0))
        && fields.at(1) == b"P".as_slice()
        && is_text(fields.at(2))
        && scale_of(fields.at(3)).is_some()
}

/// Whether the fields are `x1,y1,x2,y2`, the edges in order.
fn is_box(fields: &Fields) -> bool
    ensures { result ≡ is_box fields.now }
{
    fields.count() == 4
        && fields.begin_with_numbers(4)
        && compare_numbers(fields.at(0), fields.at(2)).is_le()
        && compare_numbers(fields.at(1), fields.at(3)).is_le()
}

/// What is wrong with the fields of an S line.
pub fn segment_fault(scale: Scale, fields: &Fields) -> Option<LineFault>
    ensures { result ≡ segment_fault scale fields.now }
{
    if !is_segment(fields) {
        return Some(LineFault::BadLine);
    }
    if layer_of(fields.at(7)).is_none() {
        return Some(LineFault::BadLayer);
    }
    limit_fault(long_name(fields.at(5)), far_coordinate(scale, fields, 5))
}

/// What is wrong with the fields of a C line.
pub fn connector_fault(scale: Scale, fields: &Fields) -> Option<LineFault>
    ensures { result ≡ connector_fault scale fields.now }
{
    if !is_connector(fields) {
        return Some(LineFault::BadLine);
    }
    if layer_of(fields.at(6)).is_none() {
        return Some(LineFault::BadLayer);
    }
    limit_fault(long_name(fields.at(3)), far_coordinate(scale, fields, 3))
}

/// What is wrong with the fields of a V line.
pub fn via_fault(scale: Scale, fields: &Fields) -> Option<LineFault>
    ensures { result ≡ via_fault scale fields.now }
{
    if !is_via(fields) {
        return Some(LineFault::BadLine);
    }
    limit_fault(long_name(fields.at(3)), far_coordinate(scale, fields, 2))
}

/// What is wrong with the fields of an I line, whose name is taken or isn't.
pub fn instance_fault(scale: Scale, taken: bool, fields: &Fields) -> Option<LineFault>
    ensures { result ≡ instance_fault scale taken fields.now }
{
    if !is_instance(taken, fields) {
        return Some(LineFault::BadLine);
    }
    if transform_of(fields.at(4)).is_none() {
        return Some(LineFault::BadTransform);
    }
    let long = long_name(fields.at(2)).or(long_name(fields.at(3)));
    limit_fault(long, far_coordinate(scale, fields, 2))
}

/// What is wrong with the fields of an R line.
pub fn reference_fault(scale: Scale, fields: &Fields) -> Option<LineFault>
    ensures { result ≡ reference_fault scale fields.now }
{
    if !is_reference(fields) {
        return Some(LineFault::BadLine);
    }
    limit_fault(long_name(fields.at(2)), far_coordinate(scale, fields, 2))
}

/// What is wrong with the fields of the H line.
pub fn head_fault(fields: &Fields) -> Option<LineFault>
    ensures { result ≡ head_fault fields.now }
{
    if !is_head(fields) {
        return Some(LineFault::BadLine);
    }
    limit_fault(long_name(fields.at(0)), None)
}

/// What is wrong with the fields of the A line.
pub fn box_fault(scale: Scale, fields: &Fields) -> Option<LineFault>
    ensures { result ≡ box_fault scale fields.now }
{
    if !is_box(fields) {
        return Some(LineFault::BadLine);
    }
    limit_fault(None, far_coordinate(scale, fields, 4))
}
