// The instances of a netlist in one row, and where their pins then lie.
ghost use Rattle.std.specs.Prelude.{◌≡◌, ◌++◌, ◌∷◌, ◌+◌, ◌<◌, ◌≤◌, false, [], map, length, take, drop, IfOk, IfSome, OnOk};
ghost use Rattle.std.specs.List.{All};
ghost use Rattle.net_meaning.specs.Netlist.{AbstractNetlist as Seen};
ghost use Rattle.net_right.specs.View.{IsSeenAs};
ghost use Rattle.ocp_place.specs.Stood.{point_site};
ghost use Rattle.ocp_place.specs.Reaches.{site_of, reached_drivers, spot_point, spot_sites};
ghost use Rattle.cell_checks.specs.Checked.{IsChecked as HasPassed};
ghost use Rattle.ocp_place.specs.Drawable.{IsDrawableIn};
ghost use Rattle.row_meaning.specs.Length.{y_at};
ghost use Rattle.ocp_place.specs.Rows.{IsRow, AreEnds, IsShort, HasShortPins, IsNearSite, IsPutAt, class_if, option_sites};
ghost use Rattle.sym_geom.specs.declared.grid.TheConstants.{FIRST_CELL_X as first_x};

use crate::reach::{PinReach, Reach, reaches};
use cell_checks::Library;
use net_core::Netlist;
use std::alloc::{AllocError, Global};
use sym_geom::{FIRST_CELL_X, ROW_HEIGHT};

/// A point of a terminal, and the terminal's class.
#[derive(Clone, Copy)]
pub struct Site {
    pub class: u32,
    pub x: u64,
    pub y: u64,
}

/// A row so far: where its instances begin, the points of their signal pins, the classes of their output pins, and its width.
#[derive(Drop)]
pub(crate) struct Row {
    pub(crate) starts: Vec<u64>,
    pub(crate) sites: Vec<Site>,
    pub(crate) drivers: Vec<u32>,
    pub(crate) width: u64,
}

/// Where an instance stands: where it begins, and in which row.
#[derive(Clone, Copy)]
pub(crate) struct Spot {
    pub(crate) x: u64,
    pub(crate) row: u32,
}

/// The height of a point of a cell in a row. Every other row is upside down.
fn shown_y(row: u32, y: u64) -> u64
    requires { y ≤ 5000 }
    ensures value { result ≡ y_at row y }
    ensures near { result ≤ 100000000000000 }
{
    let foot = u64::from(ROW_HEIGHT) * u64::from(row);
    if row % 2 == 0 {
        foot + y
    } else {
        foot + (u64::from(ROW_HEIGHT) - y)
    }
}

/// The point of a pin of an instance that stands there; none where the pin isn't reached.
fn pin_site(pin: &PinReach, class: u32, spot: Spot) -> Option<Site>
    requires { IsShort spot.x pin.now.point }
    ensures site { option_sites result ≡ point_site class (spot_point spot.x spot.row pin.now.point) }
    ensures near { IfSome result IsNearSite }
{
    match pin.point {
        None => None,
        Some(point) => Some(Site {
            class,
            x: spot.x + point.x,
            y: shown_y(spot.row, point.y),
        }),
    }
}

/// Puts a class behind the others, where it has to stand there.
fn push_class(classes: &mut Vec<u32>, class: u32, wanted: bool) -> Result<(), AllocError>
    ensures { OnOk result (classes.new.items ≡ classes.old.items ++ class_if wanted class) }
{
    if wanted {
        classes.push(class)?;
    }
    Ok(())
}

/// Puts a point behind the others, if there is one.
fn push_site(sites: &mut Vec<Site>, site: Option<Site>) -> Result<(), AllocError>
    requires near { IfSome site IsNearSite }
    ensures sites { OnOk result (map site_of sites.new.items ≡ map site_of sites.old.items ++ option_sites site) }
    ensures near { OnOk result (All IsNearSite sites.old.items → All IsNearSite sites.new.items) }
{
    if let Some(site) = site {
        sites.push(site)?;
    }
    Ok(())
}

impl Row {
    /// Puts the pins of an instance behind the others, where it stands there and all its pins have these classes.
    pub(crate) fn put(
        &mut self,
        pins: &[PinReach],
        classes: &[u32],
        spot: Spot,
    ) -> Result<(), AllocError>
        requires inside { All (λ r. r.place < length classes.now) pins.now }
        requires short { HasShortPins spot.x pins.now }
        ensures sites { OnOk result (map site_of self.new.sites.items
            ≡ map site_of self.old.sites.items ++ spot_sites spot.x spot.row classes.now pins.now) }
        ensures near { OnOk result (All IsNearSite self.old.sites.items → All IsNearSite self.new.sites.items) }
        ensures drivers { OnOk result (self.new.drivers.items ≡ self.old.drivers.items ++ reached_drivers classes.now pins.now) }
        ensures width { OnOk result (self.new.width ≡ self.old.width) }
        ensures starts { OnOk result (self.new.starts.items ≡ self.old.starts.items) }
    {
        for pin in pins {
            let class = classes[pin.place];
            push_class(&mut self.drivers, class, pin.drives)?;
            push_site(&mut self.sites, pin_site(pin, class, spot))?;
        }
        Ok(())
    }

    /// Puts an instance at the end of the row, where all its pins have these classes.
    fn add(&mut self, reach: &Reach, classes: &[u32]) -> Result<(), AllocError>
        requires inside { All (λ r. r.place < length classes.now) reach.now.pins.items }
        requires short { HasShortPins (first_x + self.old.width) reach.now.pins.items }
        requires narrow { self.old.width + reach.now.width ≤ 70000000000000 }
        ensures { OnOk result (IsPutAt self.old self.new reach.now classes.now (first_x + self.old.width)) }
    {
        let x = u64::from(FIRST_CELL_X) + self.width;
        self.starts.push(x)?;
        self.put(&reach.pins, classes, Spot { x, row: 0 })?;
        self.width += reach.width;
        Ok(())
    }
}

/// So many of the classes, from the first on.
pub(crate) fn classes_from<'c>(classes: &'c [u32], first: u32, many: usize) -> &'c [u32]
    requires { first + many ≤ length classes.now }
    ensures { result.now ≡ take many (drop first classes.now) }
{
    let start = first as usize;
    &classes[start..start + many]
}

/// The row of a netlist's instances in their order. Takes memory for their signal pins, and for those of each model.
pub(crate) fn netlist_row(
    alloc: Global,
    netlist: &Netlist,
    library: &Library,
) -> Result<Row, AllocError>
    requires library { HasPassed false library.now }
    requires netlist { IsDrawableIn library.now netlist.now }
    ensures { IfOk result (λ row. (k : Seen) → IsSeenAs netlist.now k → IsRow k library.now row) }
{
    let reaches = reaches(alloc, library, netlist.models())?;
    let classes = netlist.classes();
    let mut row = Row {
        starts: Vec::new(alloc),
        sites: Vec::new(alloc),
        drivers: Vec::new(alloc),
        width: 0,
    };
    for node in netlist.nodes() {
        let own = classes_from(classes, node.first, node.pins.as_slice().len());
        row.add(&reaches[node.model], own)?;
    }
    Ok(row)
}

/// Points by their classes, of which there are so many. Takes memory for each class and each point.
pub(crate) fn grouped(
    alloc: Global,
    count: u32,
    sites: &[Site],
) -> Result<Vec<Vec<Site>>, AllocError>
    requires { All (λ s. s.class < count) sites.now }
    ensures many { IfOk result (λ groups. length groups.items ≡ count) }
    ensures ends { IfOk result (λ groups. AreEnds sites.now groups.items) }
{
    let mut groups = no_groups(alloc, count)?;
    for site in sites {
        groups[site.class as usize].push(*site)?;
    }
    Ok(groups)
}

/// No points for each of so many classes.
fn no_groups(alloc: Global, count: u32) -> Result<Vec<Vec<Site>>, AllocError>
    ensures many { IfOk result (λ groups. length groups.items ≡ count) }
    ensures empty { IfOk result (λ groups. AreEnds [] groups.items) }
{
    let mut groups = Vec::new(alloc);
    for _ in 0..count {
        groups.push(Vec::new(alloc))?;
    }
    Ok(groups)
}
