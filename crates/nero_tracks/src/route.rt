// The tracks of nets.
ghost use Rattle.std.specs.Prelude.{◌≡◌, ◌++◌, ◌<◌, ◌≤◌, [], map, filter, length, not, IfOk, IfErr, OnOk};
ghost use Rattle.std.specs.List.{All};
ghost use Rattle.ocp_place.specs.Nets.{is_among};
ghost use Rattle.ocp_place.specs.Reaches.{site_of};
ghost use Rattle.ocp_place.specs.Spans.{shown_span};
ghost use Rattle.nero_tracks.specs.Columns.{HaveOwnColumns};
ghost use Rattle.nero_tracks.specs.Drawable.{IsDrawableIn, IsTrackRefusal};
ghost use Rattle.nero_tracks.specs.Tracks.{net_pins, track_span, IsNearSpan, AreMarks, AreTracks};

use crate::TrackError;
use crate::columns::check_columns;
use crate::marks::no_marks;
use cell_checks::Library;
use net_core::Netlist;
use ocp_place::{Placement, Site, span};
use std::alloc::{AllocError, Global};

/// The track of a net: the class of the net, and from where to where the track runs; nowhere for a net that has no pins.
#[derive(Clone, Copy)]
pub struct Track {
    pub class: u32,
    pub span: Option<(u64, u64)>,
}

/// For each of so many classes, whether it stands among some.
fn marks(alloc: Global, classes: &[u32], count: u32) -> Result<Vec<bool>, AllocError>
    requires { All (λ c. c < count) classes.now }
    ensures { IfOk result (λ v. AreMarks classes.now count v.items) }
{
    let mut marks = no_marks(alloc, count as usize)?;
    for class in classes {
        marks[*class as usize] = true;
    }
    Ok(marks)
}

/// The classes of the nets by their numbers: those of ports, then those of drivers where no port stands.
fn net_classes(
    alloc: Global,
    ports: &[u32],
    drivers: &[u32],
    count: u32,
) -> Result<Vec<u32>, AllocError>
    requires ports { All (λ c. c < count) ports.now }
    requires drivers { All (λ c. c < count) drivers.now }
    ensures { IfOk result (λ v. v.items ≡ ports.now ++ filter (λ class. not (is_among ports.now class)) drivers.now) }
{
    let marks = marks(alloc, ports, count)?;
    let mut classes = Vec::new(alloc);
    for class in ports {
        classes.push(*class)?;
    }
    for class in drivers {
        if !marks[*class as usize] {
            classes.push(*class)?;
        }
    }
    Ok(classes)
}

/// The classes of a placement's nets by their numbers: first those of the ports without the supplies, in the order of names, then one
/// for each other output pin, in the order of instances. Takes memory for each class.
pub fn placed_nets(alloc: Global, placement: &Placement) -> Result<Vec<u32>, AllocError>
    ensures classes { IfOk result (λ v. v.items
        ≡ placement.now.ports ++ filter (λ class. not (is_among placement.now.ports class)) placement.now.drivers) }
    ensures inside { IfOk result (λ v. All (λ c. c < length placement.now.ends) v.items) }
{
    let ports = placement.ports();
    let classes = net_classes(alloc, ports, placement.drivers(), placement.count())?;
    Ok(classes)
}

/// The points of the pins of net `k`, where so many nets have a port.
pub fn net_pins(ends: &[Site], ports: usize, k: usize) -> &[Site]
    requires { All (λ s. (s.x ≤ 100000000000000) × (s.y ≤ 100000000000000)) ends.now }
    ensures near { All (λ s. (s.x ≤ 100000000000000) × (s.y ≤ 100000000000000)) result.now }
    ensures points { map (λ s. (site_of s).1) result.now ≡ net_pins ports k (map (λ s. (site_of s).1) ends.now) }
{
    if k < ports && !ends.is_empty() {
        return &ends[1..];
    }
    ends
}

/// From where to where the track of net `k` runs.
fn track_span(ends: &[Site], ports: usize, k: usize) -> Option<(u64, u64)>
    requires { All (λ s. (s.x ≤ 100000000000000) × (s.y ≤ 100000000000000)) ends.now }
    ensures near { IsNearSpan result }
    ensures span { shown_span result ≡ track_span (map (λ s. (site_of s).1) ends.now) (net_pins ports k (map (λ s. (site_of s).1) ends.now)) }
{
    if net_pins(ends, ports, k).is_empty() {
        return None;
    }
    span(ends, false)
}

/// The tracks of all nets, by their numbers: first the nets of the ports without the supplies, in the order of names, then one for
/// each other output pin, in the order of instances. A pin that is tied to vdd or vss is on none of them. It is refused by `NoColumn`
/// exactly where two pins of a cell in use are reached in one column, which never comes with a library that was checked for tracks:
/// by the first such cell in the order of models, and its first pin in the column of an earlier one. Takes memory for each net, for
/// each model and for the shapes of a cell, and time for each terminal and, once for each cell in use, for its grid at each of its pins.
pub fn route_tracks(
    alloc: Global,
    placement: &Placement,
    netlist: &Netlist,
    library: &Library,
) -> Result<Vec<Track>, TrackError>
    requires { IsDrawableIn library.now netlist.now }
    ensures tracks { IfOk result (λ tracks. AreTracks placement.now tracks.items) }
    ensures apart { OnOk result (HaveOwnColumns library.now netlist.now) }
    ensures refused { IfErr result (λ e. IsTrackRefusal library.now netlist.now e) }
{
    check_columns(alloc, netlist, library)?;
    let tracks = tracks(alloc, placement)?;
    Ok(tracks)
}

/// The tracks of all nets.
fn tracks(alloc: Global, placement: &Placement) -> Result<Vec<Track>, AllocError>
    ensures { IfOk result (λ tracks. AreTracks placement.now tracks.items) }
{
    let ports = placement.ports();
    let classes = placed_nets(alloc, placement)?;
    let mut tracks = Vec::new(alloc);
    for k in 0..classes.len() {
        let class = classes[k];
        tracks.push(Track {
            class,
            span: track_span(placement.ends(class), ports.len(), k),
        })?;
    }
    Ok(tracks)
}
