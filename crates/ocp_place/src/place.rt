// Netlists in one row, in their own order, or in rows.
ghost use Rattle.std.specs.Prelude.{◌≡◌, ◌≤◌, ◌<◌, ◌^◌, ◌++◌, false, [], map, flat_map, length, slice_index_or, IsPermutation, IfOk, OnOk};
ghost use Rattle.std.specs.List.{All};
ghost use Rattle.vlsi_base.specs.Names.{scalar};
ghost use Rattle.machine_core.specs.Named.{is_same_name};
ghost use Rattle.ocp_place.specs.Sites.{port_sites};
ghost use Rattle.ocp_place.specs.Reaches.{site_of};
ghost use Rattle.cell_checks.specs.Checked.{IsChecked as HasPassed};
ghost use Rattle.ocp_place.specs.Drawable.{IsDrawableIn};
ghost use Rattle.row_meaning.specs.First.{numbers, first_rows};
ghost use Rattle.ocp_place.specs.Placed.{IsPlacementOf, IsRowPlacementOf, IsFirstPlacement, IsEvenPlacement};
ghost use Rattle.ocp_place.specs.Standing.{AreCellsOf};
ghost use Rattle.ocp_place.specs.Stood.{instance_columns};
ghost use Rattle.ocp_place.specs.Rows.{AreEnds, IsNearSite};
ghost use Rattle.net_meaning.specs.Netlist.{AbstractNetlist as Seen};
ghost use Rattle.net_right.specs.View.{IsSeenAs};
ghost use Rattle.ocp_place.specs.Ports.{IsPutIn, IsSplit, AreNear};

use crate::row::{Row, Site, grouped, netlist_row};
use crate::rows::{Cells, Standing, block_width, cells_of, grid_ends, stand_in_rows};
use cell_checks::Library;
use cell_pins::is_scalar;
use net_core::Netlist;
use row_fill::fill_rows;
use std::alloc::{AllocError, Global};
use std::marker::Model;
use sym_geom::{FIRST_CELL_X, FIRST_TRACK_Y, PITCH};
use vlsi_base::{Name, Port};

/// The instances of a netlist, placed: for each class the points of its ports and of its signal pins. For tracks they stand in one row
/// in their order, and a port stands at the left end of the track of its rank among the ports without the supplies. Else they stand in
/// rows, every other one of which is upside down, and a port stands above the rows in the column of its rank.
#[derive(Drop)]
pub struct Placement {
    pub(crate) ports: Vec<u32>,
    pub(crate) drivers: Vec<u32>,
    pub(crate) ends: Vec<Vec<Site>>,
    pub(crate) starts: Vec<u64>,
    pub(crate) width: u64,
    pub(crate) high: u32,
    pub(crate) low: u32,
    pub(crate) tracks: bool,
    pub(crate) rows: Vec<Vec<u32>>,
    pub(crate) row_numbers: Vec<u32>,
}

impl Model for Placement {
    ghost use Rattle.ocp_place.specs.Placed.{InRow};
    ghost use Rattle.ocp_place.specs.Ports.{in_row, IsSound};

    ghost Value = { InRow };

    ghost view = { λ a. in_row a.ports.items a.drivers.items a.ends.items a.starts.items a.width a.high a.low a.tracks a.rows.items
        a.row_numbers.items };

    ghost invariant = { λ a. IsSound a.ports.items a.drivers.items a.ends.items a.starts.items a.width };
}

/// The classes of the ports: of vdd, of vss, and of the others in their order.
#[derive(Drop)]
pub(crate) struct PortClasses {
    pub(crate) high: u32,
    pub(crate) low: u32,
    pub(crate) signals: Vec<u32>,
}

/// Whether a name is this text without a bit.
fn is_named(name: &Name, text: &[u8]) -> bool
    ensures { result ≡ is_same_name name.now (scalar text.now) }
{
    is_scalar(name, text)
}

impl PortClasses {
    /// Puts the class of a port where its name says.
    fn put(&mut self, name: &Name, class: u32) -> Result<(), AllocError>
        ensures { OnOk result (IsPutIn self.old self.new name.now class) }
    {
        if is_named(name, b"vdd") {
            self.high = class;
        } else if is_named(name, b"vss") {
            self.low = class;
        } else {
            self.signals.push(class)?;
        }
        Ok(())
    }
}

/// The classes of ports, where each has its class at its place.
fn port_classes(alloc: Global, ports: &[Port], classes: &[u32]) -> Result<PortClasses, AllocError>
    requires { length ports.now ≤ length classes.now }
    ensures { IfOk result (λ p. IsSplit ports.now classes.now p) }
{
    let mut split = PortClasses {
        high: 0,
        low: 0,
        signals: Vec::new(alloc),
    };
    for k in 0..ports.len() {
        split.put(&ports[k].name, classes[k])?;
    }
    Ok(split)
}

/// The points of ports with these classes: each at the left end of its track.
fn port_ends(alloc: Global, ports: &[u32]) -> Result<Vec<Site>, AllocError>
    requires { length ports.now < 2 ^ 32 }
    ensures { IfOk result (λ sites. map site_of sites.items ≡ port_sites 0 ports.now) }
{
    let mut sites = Vec::new(alloc);
    for k in 0..ports.len() {
        sites.push(Site {
            class: ports[k],
            x: u64::from(FIRST_CELL_X),
            y: u64::from(FIRST_TRACK_Y) + u64::from(PITCH) * k as u64,
        })?;
    }
    Ok(sites)
}

/// Places the instances of a netlist in one row in their order, for private tracks. Takes memory and time for each terminal, and
/// for the shapes of the cells in use.
pub fn track_place(
    alloc: Global,
    netlist: &Netlist,
    library: &Library,
) -> Result<Placement, AllocError>
    requires library { HasPassed false library.now }
    requires netlist { IsDrawableIn library.now netlist.now }
    ensures { IfOk result (λ p. IsPlacementOf library.now netlist.now p) }
{
    let ports = port_classes(alloc, netlist.ports(), netlist.classes())?;
    let Row {
        starts,
        sites,
        drivers,
        width,
    } = netlist_row(alloc, netlist, library)?;
    let mut all = port_ends(alloc, &ports.signals)?;
    for site in &sites {
        all.push(*site)?;
    }
    let ends = grouped(alloc, netlist.count(), &all)?;
    Ok(Placement {
        ports: ports.signals,
        drivers,
        ends,
        starts,
        width,
        high: ports.high,
        low: ports.low,
        tracks: true,
        rows: Vec::new(alloc),
        row_numbers: Vec::new(alloc),
    })
}

/// The points of all terminals, by their classes, of which there are so many: of ports and of pins.
fn ends_of(
    alloc: Global,
    count: u32,
    ports: Vec<Site>,
    pins: &[Site],
) -> Result<Vec<Vec<Site>>, AllocError>
    requires ports { All (λ s. s.class < count) ports.items }
    requires pins { All (λ s. s.class < count) pins.now }
    requires tops { All IsNearSite ports.items }
    requires near { All IsNearSite pins.now }
    ensures many { IfOk result (λ ends. length ends.items ≡ count) }
    ensures ends { IfOk result (λ ends. AreEnds (ports.items ++ pins.now) ends.items) }
    ensures near { IfOk result (λ ends. AreNear ends.items) }
{
    let mut all = ports;
    all.extend_from_slice(pins)?;
    let ends = grouped(alloc, count, &all)?;
    Ok(ends)
}

/// A netlist placed in rows of the numbers of its instances.
fn placed(
    alloc: Global,
    netlist: &Netlist,
    library: &Library,
    cells: &Cells,
    rows: Vec<Vec<u32>>,
) -> Result<Placement, AllocError>
    requires library { HasPassed false library.now }
    requires netlist { IsDrawableIn library.now netlist.now }
    requires cells { AreCellsOf library.now netlist.now cells.now }
    requires once { IsPermutation (flat_map (λ row. row) (map (λ v. v.items) rows.items)) (numbers 0 (length netlist.now.instances)) }
    requires some { 1 ≤ length rows.items }
    requires few { length rows.items ≤ 256 }
    ensures placed { IfOk result (λ p. IsRowPlacementOf library.now netlist.now p) }
    ensures rows { IfOk result (λ p. p.rows ≡ map (λ v. v.items) rows.items) }
{
    let ports = port_classes(alloc, netlist.ports(), netlist.classes())?;
    let standing = stand_in_rows(alloc, netlist, library, cells, &rows)?;
    let width = block_width(standing.width, ports.signals.len());
    let columns = width / u64::from(PITCH);
    let at_top = grid_ends(alloc, &ports.signals, columns, rows.len())?;
    let ends = ends_of(alloc, netlist.count(), at_top, &standing.sites)?;
    Ok(Placement {
        ports: ports.signals,
        drivers: standing.drivers,
        ends,
        starts: standing.spots.starts,
        width,
        high: ports.high,
        low: ports.low,
        tracks: false,
        rows,
        row_numbers: standing.spots.row_numbers,
    })
}

/// Places the instances of a netlist in these rows of their numbers, from the lowest row up. Takes memory and time for each terminal,
/// and for the shapes of the cells in use.
pub fn place_in_rows(
    alloc: Global,
    netlist: &Netlist,
    library: &Library,
    rows: Vec<Vec<u32>>,
) -> Result<Placement, AllocError>
    requires library { HasPassed false library.now }
    requires netlist { IsDrawableIn library.now netlist.now }
    requires once { IsPermutation (flat_map (λ row. row) (map (λ v. v.items) rows.items)) (numbers 0 (length netlist.now.instances)) }
    requires some { 1 ≤ length rows.items }
    requires few { length rows.items ≤ 256 }
    ensures placed { IfOk result (λ p. IsRowPlacementOf library.now netlist.now p) }
    ensures rows { IfOk result (λ p. p.rows ≡ map (λ v. v.items) rows.items) }
{
    let cells = cells_of(alloc, netlist, library)?;
    placed(alloc, netlist, library, &cells, rows)
}

/// The first rows of cells in use, so many.
fn first_rows(
    alloc: Global,
    library: &Library,
    netlist: &Netlist,
    cells: &Cells,
    rows: u32,
) -> Result<Vec<Vec<u32>>, AllocError>
    requires some { 1 ≤ rows }
    requires library { HasPassed false library.now }
    requires netlist { IsDrawableIn library.now netlist.now }
    requires cells { AreCellsOf library.now netlist.now cells.now }
    ensures rows { IfOk result (λ made. (k : Seen) → IsSeenAs netlist.now k
        → map (λ v. v.items) made.items ≡ first_rows (instance_columns library.now k.instances) rows) }
{
    let _ = library;
    let _ = netlist;
    let mut columns = Vec::new(alloc);
    for width in &cells.widths {
        columns.push(*width / u64::from(PITCH))?;
    }
    let made = fill_rows(alloc, &columns, rows)?;
    Ok(made)
}

/// The first placement of a netlist in so many rows: they are filled from the lowest up in the order of instances, each until it is as
/// wide as its share. Takes memory and time for each terminal, and for the shapes of the cells in use.
pub fn row_place(
    alloc: Global,
    netlist: &Netlist,
    library: &Library,
    rows: u32,
) -> Result<Placement, AllocError>
    requires library { HasPassed false library.now }
    requires netlist { IsDrawableIn library.now netlist.now }
    requires some { 1 ≤ rows }
    requires few { rows ≤ 256 }
    ensures placed { IfOk result (λ p. IsRowPlacementOf library.now netlist.now p) }
    ensures first { IfOk result (λ p. IsFirstPlacement library.now netlist.now rows p) }
    ensures even { IfOk result (λ p. IsEvenPlacement library.now netlist.now p) }
    ensures many { IfOk result (λ p. length p.rows ≡ rows) }
{
    let cells = cells_of(alloc, netlist, library)?;
    let rows = first_rows(alloc, library, netlist, &cells, rows)?;
    let placement = placed(alloc, netlist, library, &cells, rows)?;
    Ok(placement)
}

impl Placement {
    /// The classes of the ports but for the supplies, in the order of names.
    pub fn ports(&self) -> &[u32]
        ensures ports { result.now ≡ self.now.ports }
        ensures inside { All (λ c. c < length self.now.ends) result.now }
    {
        &self.ports
    }

    /// The classes of the instances' output pins, in the order of instances and of names.
    pub fn drivers(&self) -> &[u32]
        ensures drivers { result.now ≡ self.now.drivers }
        ensures inside { All (λ c. c < length self.now.ends) result.now }
    {
        &self.drivers
    }

    /// How many classes there are.
    pub fn count(&self) -> u32
        ensures { result ≡ length self.now.ends }
    {
        self.ends.len() as u32
    }

    /// The points of the terminals in a class: of its ports, then of its signal pins in the order of instances and of names.
    pub fn ends(&self, class: u32) -> &[Site]
        requires { class < length self.now.ends }
        ensures points { map (λ s. (site_of s).1) result.now ≡ slice_index_or self.now.ends class [] }
        ensures near { All (λ s. (s.x ≤ 100000000000000) × (s.y ≤ 100000000000000)) result.now }
    {
        &self.ends[class as usize]
    }

    /// Where each instance begins.
    pub fn starts(&self) -> &[u64]
        ensures starts { result.now ≡ self.now.starts }
        ensures near { All (λ x. x ≤ 100000000000000) result.now }
    {
        &self.starts
    }

    /// The numbers of the instances row by row, from the lowest row up; none are kept for tracks.
    pub fn rows(&self) -> &[Vec<u32>]
        ensures { map (λ v. v.items) result.now ≡ self.now.rows }
    {
        &self.rows
    }

    /// The number of each instance's row, from 0 for the lowest; none are kept for tracks.
    pub fn row_numbers(&self) -> &[u32]
        ensures { result.now ≡ self.now.row_numbers }
    {
        &self.row_numbers
    }

    /// How wide the row is, or the block over rows.
    pub fn width(&self) -> u64
        ensures width { result ≡ self.now.width }
        ensures narrow { result ≤ 70000000000000 }
    {
        self.width
    }
}
