// The shapes that lines draw.
ghost use Rattle.std.specs.Prelude.{◌≡◌, ◌++◌, ◌<◌, ◌^◌, length, IfOk, OnOk, All};
ghost use Rattle.sym_shapes.specs.Shape.{wire_name as name_of_wire, item_shapes, drawn};
ghost use Rattle.sym_geom.specs.declared.item.Item.TheVariants as item;
ghost use Rattle.sym_shapes.specs.Ready.{IsReady};

use crate::Shape;
use std::alloc::{AllocError, Global};
use sym_geom::{
    Connector, Item, Layer, Segment, Via, connector_rect, metal_of, segment_rect, via_pads,
};
use vlsi_base::Name;

/// A copy of a name, if there is one.
fn copied(alloc: Global, name: &Option<Name>) -> Result<Option<Name>, AllocError>
    ensures { IfOk result (λ made. made ≡ name.now) }
{
    match name {
        Some(name) => Ok(Some(name.copy(alloc)?)),
        None => Ok(None),
    }
}

/// The name of a segment where it is a connector.
fn wire_name(alloc: Global, layer: Layer, name: &Option<Name>) -> Result<Option<Name>, AllocError>
    ensures { IfOk result (λ made. made ≡ name_of_wire layer name.now) }
{
    match layer {
        Layer::Calu(_) => copied(alloc, name),
        _ => Ok(None),
    }
}

fn draw_segment(
    alloc: Global,
    shapes: &mut Vec<Shape>,
    segment: &Segment,
    line: u32,
) -> Result<(), AllocError>
    requires { IsReady (item.Segment segment.now) }
    ensures { OnOk result (shapes.new.items ≡ shapes.old.items ++ item_shapes line (item.Segment segment.now)) }
{
    let Some(metal) = metal_of(segment.layer) else {
        return Ok(());
    };
    let name = wire_name(alloc, segment.layer, &segment.name)?;
    shapes.push(Shape::new(metal, segment_rect(segment), None, line, name))?;
    Ok(())
}

fn draw_connector(
    alloc: Global,
    shapes: &mut Vec<Shape>,
    connector: &Connector,
    line: u32,
) -> Result<(), AllocError>
    requires { IsReady (item.Connector connector.now) }
    ensures { OnOk result (shapes.new.items ≡ shapes.old.items ++ item_shapes line (item.Connector connector.now)) }
{
    let Some(metal) = metal_of(connector.layer) else {
        return Ok(());
    };
    let name = copied(alloc, &connector.name)?;
    shapes.push(Shape::new(metal, connector_rect(connector), None, line, name))?;
    Ok(())
}

fn draw_via(shapes: &mut Vec<Shape>, via: &Via, line: u32) -> Result<(), AllocError>
    requires { IsReady (item.Via via.now) }
    ensures { OnOk result (shapes.new.items ≡ shapes.old.items ++ item_shapes line (item.Via via.now)) }
{
    let Some(pads) = via_pads(via) else {
        return Ok(());
    };
    let (lower, below) = pads[0];
    let (upper, above) = pads[1];
    shapes.push(Shape::new(lower, below, None, line, None))?;
    shapes.push(Shape::new(upper, above, None, line, None))?;
    Ok(())
}

/// Puts what a line draws behind the shapes that are there.
fn draw(alloc: Global, shapes: &mut Vec<Shape>, item: &Item, line: u32) -> Result<(), AllocError>
    requires { IsReady item.now }
    ensures { OnOk result (shapes.new.items ≡ shapes.old.items ++ item_shapes line item.now) }
{
    match item {
        Item::Segment(segment) => draw_segment(alloc, shapes, segment, line),
        Item::Connector(connector) => draw_connector(alloc, shapes, connector, line),
        Item::Via(via) => draw_via(shapes, via, line),
        Item::Instance(_) | Item::Reference(_) | Item::Remark(_) => Ok(()),
    }
}

/// The shapes that lines draw, in their order; those of instances are none of them. Takes memory for at most two shapes a
/// line.
pub fn drawn(alloc: Global, items: &[Item]) -> Result<Vec<Shape>, AllocError>
    requires ready { All IsReady items.now }
    requires few { length items.now < 2 ^ 32 }
    ensures { IfOk result (λ shapes. shapes.items ≡ drawn items.now) }
{
    let mut shapes = Vec::new(alloc);
    for line in 0..items.len() {
        draw(alloc, &mut shapes, &items[line], line as u32)?;
    }
    Ok(shapes)
}
