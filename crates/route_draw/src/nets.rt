// The tracks and risers of nets.
ghost use Rattle.std.specs.Prelude.{◌≡◌, ◌++◌, ◌≤◌, ◌<◌, ◌^◌, map, flat_map, length, OnOk};
ghost use Rattle.std.specs.List.{All};
ghost use Rattle.std.specs.Option.{option_copied};
ghost use Rattle.net_drawing.specs.Drawing.{riser};
ghost use Rattle.ocp_place.specs.Reaches.{site_of};
ghost use Rattle.ocp_place.specs.Spans.{shown_span};
ghost use Rattle.nero_tracks.specs.Tracks.{IsNearSpan, AreTracks};
ghost use Rattle.route_draw.specs.Pieces.{track_line, net_lines, all_lines};

use crate::lines::{Spot, Wire, push_via, push_wire};
use crate::row::track_y;
use nero_tracks::{Track, net_pins};
use ocp_place::{Placement, Site};
use std::alloc::{AllocError, Global};
use sym_geom::{Contact, Direction, Items, Layer, Level, WIRE_WIDTH};
use vlsi_base::Name;

/// A net: its number, and the name of its port, if it has one.
#[derive(Clone, Copy)]
pub(crate) struct Net<'n> {
    number: usize,
    name: Option<&'n Name>,
}

/// Adds the track of a net, if it has one.
fn push_track(
    alloc: Global,
    items: &mut Items,
    net: Net<'_>,
    span: Option<(u64, u64)>,
) -> Result<(), AllocError>
    requires few { net.number < 2 ^ 32 }
    requires near { IsNearSpan span }
    ensures { OnOk result (items.new ≡ items.old ++ track_line net.entry.number (option_copied net.entry.name) (shown_span span)) }
{
    let Some((low, high)) = span else {
        return Ok(());
    };
    let y = track_y(net.number);
    let track = Wire {
        layer: Layer::Alu(Level::Two),
        width: WIRE_WIDTH,
        direction: Direction::Right,
        from: Spot { x: low, y },
        to: Spot { x: high, y },
    };
    push_wire(alloc, items, track, net.name)
}

/// Adds the riser from a pin up to the track of its net.
fn push_riser(alloc: Global, items: &mut Items, net: Net<'_>, pin: &Site) -> Result<(), AllocError>
    requires few { net.number < 2 ^ 32 }
    requires x { pin.now.x ≤ 100000000000000 }
    requires y { pin.now.y ≤ 100000000000000 }
    ensures { OnOk result (items.new ≡ items.old ++ riser net.entry.number (option_copied net.entry.name) (site_of pin.now).1) }
{
    let foot = Spot { x: pin.x, y: pin.y };
    let head = Spot {
        x: pin.x,
        y: track_y(net.number),
    };
    let rising = Wire {
        layer: Layer::Alu(Level::Three),
        width: WIRE_WIDTH,
        direction: Direction::Up,
        from: foot,
        to: head,
    };
    push_wire(alloc, items, rising, net.name)?;
    push_via(alloc, items, Contact::Via1, foot, net.name)?;
    push_via(alloc, items, Contact::Via2, foot, net.name)?;
    push_via(alloc, items, Contact::Via2, head, net.name)
}

/// Adds the risers from pins.
fn push_risers(
    alloc: Global,
    items: &mut Items,
    net: Net<'_>,
    pins: &[Site],
) -> Result<(), AllocError>
    requires few { net.number < 2 ^ 32 }
    requires near { All (λ s. (s.x ≤ 100000000000000) × (s.y ≤ 100000000000000)) pins.now }
    ensures { OnOk result (items.new ≡ items.old
        ++ flat_map (riser net.entry.number (option_copied net.entry.name)) (map (λ s. (site_of s).1) pins.now)) }
{
    for pin in pins {
        push_riser(alloc, items, net, pin)?;
    }
    Ok(())
}

/// Adds the lines of a net: its track, then the risers from its pins.
fn push_net(
    alloc: Global,
    items: &mut Items,
    net: Net<'_>,
    span: Option<(u64, u64)>,
    pins: &[Site],
) -> Result<(), AllocError>
    requires few { net.number < 2 ^ 32 }
    requires span { IsNearSpan span }
    requires near { All (λ s. (s.x ≤ 100000000000000) × (s.y ≤ 100000000000000)) pins.now }
    ensures { OnOk result (items.new ≡ items.old
        ++ net_lines net.entry.number (option_copied net.entry.name) (shown_span span) (map (λ s. (site_of s).1) pins.now)) }
{
    push_track(alloc, items, net, span)?;
    push_risers(alloc, items, net, pins)
}

/// Adds the lines of all nets, by their numbers.
pub(crate) fn push_nets(
    alloc: Global,
    items: &mut Items,
    names: &[Name],
    placement: &Placement,
    tracks: &[Track],
) -> Result<(), AllocError>
    requires few { length tracks.now < 2 ^ 32 }
    requires tracks { AreTracks placement.now tracks.now }
    ensures { OnOk result (items.new ≡ items.old ++ all_lines 0 names.now placement.now tracks.now) }
{
    let ports = placement.ports().len();
    for k in 0..tracks.len() {
        let track = &tracks[k];
        let net = Net {
            number: k,
            name: names.get(k),
        };
        let pins = net_pins(placement.ends(track.class), ports, k);
        push_net(alloc, items, net, track.span, pins)?;
    }
    Ok(())
}
