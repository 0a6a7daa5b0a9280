// The instances of a netlist in rows, and where their pins then lie.
ghost use Rattle.std.specs.Prelude.{◌≡◌, ◌≤◌, ◌<◌, ◌+◌, ◌*◌, ◌^◌, ℕ, false, map, max, flat_map, length, IsPermutation, IfOk};
ghost use Rattle.std.specs.List.{All};
ghost use Rattle.sym_geom.specs.declared.grid.TheConstants.{PITCH as pitch};
ghost use Rattle.net_meaning.specs.Netlist.{AbstractNetlist as Seen};
ghost use Rattle.net_right.specs.View.{IsSeenAs};
ghost use Rattle.cell_checks.specs.Checked.{IsChecked as HasPassed};
ghost use Rattle.row_meaning.specs.Rows.{rows_width};
ghost use Rattle.row_meaning.specs.First.{numbers};
ghost use Rattle.ocp_rows.specs.Placement.{port_column};
ghost use Rattle.ocp_place.specs.Drawable.{IsDrawableIn};
ghost use Rattle.ocp_place.specs.Reaches.{site_of};
ghost use Rattle.ocp_place.specs.Standing.{AreCellsOf, AreSpots, ArePinsOn, IsStanding};
ghost use Rattle.ocp_place.specs.Rows.{IsNearSite};
ghost use Rattle.ocp_place.specs.Stood.{port_grid_sites};

use crate::reach::{Reach, reaches};
use crate::row::{Row, Site, Spot, classes_from};
use cell_checks::Library;
use net_core::Netlist;
use row_fill::{row_numbers, rows_width, starts_of};
use std::alloc::{AllocError, Global};
use sym_geom::{FIRST_CELL_X, PITCH, ROW_HEIGHT};

/// The cells of a netlist's models, and how wide its instances are.
#[derive(Drop)]
pub(crate) struct Cells {
    pub(crate) reaches: Vec<Reach>,
    pub(crate) widths: Vec<u64>,
}

/// Where instances stand: where each begins, and in which row.
#[derive(Drop)]
pub(crate) struct Spots {
    pub(crate) starts: Vec<u64>,
    pub(crate) row_numbers: Vec<u32>,
}

/// Instances in rows: where they stand, the points of their signal pins, the classes of their output pins, and how wide the widest
/// row is.
#[derive(Drop)]
pub(crate) struct Standing {
    pub(crate) spots: Spots,
    pub(crate) sites: Vec<Site>,
    pub(crate) drivers: Vec<u32>,
    pub(crate) width: u64,
}

/// The cells of a netlist. Takes memory for each model with its pins, and for each instance.
pub(crate) fn cells_of(
    alloc: Global,
    netlist: &Netlist,
    library: &Library,
) -> Result<Cells, AllocError>
    requires library { HasPassed false library.now }
    requires netlist { IsDrawableIn library.now netlist.now }
    ensures { IfOk result (λ cells. AreCellsOf library.now netlist.now cells) }
{
    let _ = netlist.classes();
    let reaches = reaches(alloc, library, netlist.models())?;
    let mut widths = Vec::new(alloc);
    for node in netlist.nodes() {
        widths.push(reaches[node.model].width)?;
    }
    Ok(Cells { reaches, widths })
}

/// Where instances of these widths stand in rows that hold each once.
fn spots_of(alloc: Global, rows: &[Vec<u32>], widths: &[u64]) -> Result<Spots, AllocError>
    requires once { IsPermutation (flat_map (λ row. row) (map (λ v. v.items) rows.now)) (numbers 0 (length widths.now)) }
    requires few { length rows.now < 2 ^ 32 }
    requires many { length widths.now < 2 ^ 32 }
    requires narrow { All (λ w. w ≤ 16000) widths.now }
    ensures { IfOk result (λ spots. AreSpots widths.now (map (λ v. v.items) rows.now) spots) }
{
    let starts = starts_of(alloc, rows, widths, u64::from(FIRST_CELL_X))?;
    let row_numbers = row_numbers(alloc, rows, widths.len())?;
    Ok(Spots {
        starts,
        row_numbers,
    })
}

/// The pins of a netlist's instances that stand there, as a row without starts.
fn pins_on(
    alloc: Global,
    netlist: &Netlist,
    library: &Library,
    cells: &Cells,
    spots: &Spots,
) -> Result<Row, AllocError>
    requires library { HasPassed false library.now }
    requires netlist { IsDrawableIn library.now netlist.now }
    requires cells { AreCellsOf library.now netlist.now cells.now }
    requires starts { length spots.now.starts.items ≡ length netlist.now.instances }
    requires rows { length spots.now.row_numbers.items ≡ length netlist.now.instances }
    requires near { All (λ x. x ≤ 80000000000000) spots.now.starts.items }
    ensures { IfOk result (λ row. ArePinsOn library.now netlist.now spots.now row) }
{
    let _ = library;
    let classes = netlist.classes();
    let nodes = netlist.nodes();
    let mut row = Row {
        starts: Vec::new(alloc),
        sites: Vec::new(alloc),
        drivers: Vec::new(alloc),
        width: 0,
    };
    for k in 0..nodes.len() {
        let node = &nodes[k];
        let own = classes_from(classes, node.first, node.pins.as_slice().len());
        let spot = Spot {
            x: spots.starts[k],
            row: spots.row_numbers[k],
        };
        row.put(&cells.reaches[node.model].pins, own, spot)?;
    }
    Ok(row)
}

/// The instances of a netlist in rows that hold each once, by their numbers.
pub(crate) fn stand_in_rows(
    alloc: Global,
    netlist: &Netlist,
    library: &Library,
    cells: &Cells,
    rows: &[Vec<u32>],
) -> Result<Standing, AllocError>
    requires library { HasPassed false library.now }
    requires netlist { IsDrawableIn library.now netlist.now }
    requires cells { AreCellsOf library.now netlist.now cells.now }
    requires once { IsPermutation (flat_map (λ row. row) (map (λ v. v.items) rows.now)) (numbers 0 (length netlist.now.instances)) }
    requires few { length rows.now ≤ 256 }
    ensures { IfOk result (λ s. (k : Seen) → IsSeenAs netlist.now k → IsStanding k library.now (map (λ v. v.items) rows.now) s) }
{
    let spots = spots_of(alloc, rows, &cells.widths)?;
    let pins = pins_on(alloc, netlist, library, cells, &spots)?;
    let width = rows_width(rows, &cells.widths);
    Ok(Standing {
        spots,
        sites: pins.sites,
        drivers: pins.drivers,
        width,
    })
}

/// How wide a block is, whose widest row is so wide: one column more than there are ports at least.
pub(crate) fn block_width(widest: u64, ports: usize) -> u64
    requires ports { ports < 2 ^ 32 }
    ensures { result ≡ max widest (pitch * (ports + 1)) }
{
    widest.max(u64::from(PITCH) * (ports as u64 + 1))
}

/// The column of the port of rank `k`, of so many above a block of so many columns.
fn port_column(count: usize, columns: u64, k: usize) -> u64
    requires rank { k < count }
    requires some { 1 ≤ columns }
    requires near { columns ≤ 200000000000 }
    ensures value { result ≡ port_column count columns k }
    ensures inside { result ≤ columns }
{
    1 + k as u64 * ((columns - 1) / count as u64)
}

/// The points of ports with these classes, above so many rows, in a block of so many columns: each in the column of its rank.
pub(crate) fn grid_ends(
    alloc: Global,
    ports: &[u32],
    columns: u64,
    rows: usize,
) -> Result<Vec<Site>, AllocError>
    requires ports { length ports.now < 2 ^ 32 }
    requires columns { columns ≤ 200000000000 }
    requires wide { length ports.now < columns }
    requires rows { rows ≤ 256 }
    ensures sites { IfOk result (λ sites. map site_of sites.items ≡ port_grid_sites columns rows ports.now) }
    ensures near { IfOk result (λ sites. All IsNearSite sites.items) }
    ensures classes { IfOk result (λ sites. (n : ℕ) → All (λ c. c < n) ports.now → All (λ s. s.class < n) sites.items) }
{
    let y = u64::from(ROW_HEIGHT) * rows as u64 + u64::from(PITCH);
    let mut sites = Vec::new(alloc);
    for k in 0..ports.len() {
        let column = port_column(ports.len(), columns, k);
        sites.push(Site {
            class: ports[k],
            x: u64::from(FIRST_CELL_X) + u64::from(PITCH) * column,
            y,
        })?;
    }
    Ok(sites)
}
