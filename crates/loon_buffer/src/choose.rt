// Cells that make the longest path short.
ghost use Rattle.std.specs.Prelude.{◌≡◌, ◌↔◌, ◌<◌, ◌≤◌, ℕ, true, false, IsTrue, length, slice_get};
ghost use Rattle.cell_model.specs.Library.{Library as Cells, cell_of};
ghost use Rattle.net_core.specs.Places.{Stands};
ghost use Rattle.net_core.specs.Netlist.{Instance, IsNetlist};
ghost use Rattle.delay_sta.specs.Graph.{AreFound};
ghost use Rattle.delay_sta.specs.Paths.{IsWorst};
ghost use Rattle.delay_sta.specs.Timed.{CanBeTimed, AreDelaysOf};
ghost use Rattle.loon_buffer.specs.Drives.{IsDriveTable, HasDrives, OnlyExchanges, IsDriven};
ghost use Rattle.loon_buffer.specs.Choices.{IsReady, HasMarkedPin, IsDriveAt, IsShorter, Shortens, DoesNotHelp, IsDrivenAt};

use crate::table::DriveTable;
use cell_checks::Library;
use delay_sta::{Delays, worst};
use net_core::Netlist;

/// Whether an instance, by its number, has a pin in a marked class.
fn has_marked_pin(netlist: &Netlist, delays: &Delays, number: u32) -> bool
    requires { number < length netlist.now.instances }
    ensures { IsTrue result ↔ HasMarkedPin netlist.now delays.now.marks.items number }
{
    let classes = netlist.classes();
    let node = &netlist.nodes()[number as usize];
    for k in 0..node.pins.as_slice().len() {
        if delays.is_marked(classes[node.first as usize + k]) {
            return true;
        }
    }
    false
}

/// The place in the library of an instance's cell, by the instance's number.
fn cell_place(netlist: &Netlist, delays: &Delays, number: u32) -> usize
    requires there { number < length netlist.now.instances }
    requires each { length delays.now.places.items ≡ length netlist.now.models }
    ensures { (l : Cells) (i : Instance) → AreFound l.cells netlist.now.models delays.now.places.items → Stands netlist.now.instances number i
        → slice_get l.cells result ≡ cell_of l i.model }
{
    delays.cell(netlist.nodes()[number as usize].model)
}

/// Puts the cell at a place of the library in the place of an instance's, by its number, where this makes the longest path shorter;
/// whether it does. Else the netlist is left as it was.
fn try_exchange(
    netlist: &mut Netlist,
    library: &Library,
    delays: &mut Delays,
    number: u32,
    place: usize,
) -> bool
    requires ready { IsReady library.now netlist.old delays.old }
    requires drive { IsDriveAt library.now netlist.old number place }
    ensures ready { IsReady library.now netlist.new delays.new }
    ensures marks { delays.new.marks ≡ delays.old.marks }
    ensures helps { result ≡ true → Shortens library.now netlist.old netlist.new }
    ensures kept { result ≡ false → netlist.new ≡ netlist.old }
    ensures idle { result ≡ false → DoesNotHelp library.now netlist.old number place }
{
    let before = worst(delays);
    let own = cell_place(netlist, delays, number);
    delays.exchange(netlist, library, number, place);
    let after = worst(delays);
    if after < before {
        return true;
    }
    delays.exchange(netlist, library, number, own);
    false
}

/// Exchanges an instance's cell, by the instance's number, for the first of its drives that makes the longest path shorter; whether
/// one does. Else the netlist is left as it was.
fn exchange_cell(
    netlist: &mut Netlist,
    table: &DriveTable,
    library: &Library,
    delays: &mut Delays,
    number: u32,
) -> bool
    requires there { number < length netlist.old.instances }
    requires table { IsDriveTable library.now.cells table.now.drives.items }
    requires ready { IsReady library.now netlist.old delays.old }
    ensures ready { IsReady library.now netlist.new delays.new }
    ensures marks { delays.new.marks ≡ delays.old.marks }
    ensures helps { result ≡ true → Shortens library.now netlist.old netlist.new }
    ensures kept { result ≡ false → netlist.new ≡ netlist.old }
    ensures driven { result ≡ false → IsDrivenAt library.now table.now.drives.items netlist.old number }
{
    // The cells aren't read here: the call says that they have passed their checks.
    let _ = library.cells();
    let own = cell_place(netlist, delays, number);
    for drive in table.drives(own) {
        if try_exchange(netlist, library, delays, number, *drive) {
            return true;
        }
    }
    false
}

/// Goes through all instances once, and exchanges the cell of each for the first of its drives that makes the longest path shorter;
/// whether one does.
fn pass(netlist: &mut Netlist, table: &DriveTable, library: &Library, delays: &mut Delays) -> bool
    requires table { IsDriveTable library.now.cells table.now.drives.items }
    requires ready { IsReady library.now netlist.old delays.old }
    ensures ready { IsReady library.now netlist.new delays.new }
    ensures chosen { OnlyExchanges library.now netlist.old netlist.new }
    ensures shorter { result ≡ true → IsShorter library.now netlist.old netlist.new }
    ensures kept { result ≡ false → netlist.new ≡ netlist.old }
    ensures driven { result ≡ false → IsDriven netlist.new library.now }
{
    // The classes aren't read here: the call says that there are few.
    let _ = netlist.classes();
    let mut helped = false;
    delays.trace();
    for k in 0..netlist.nodes().len() {
        let number = k as u32;
        if has_marked_pin(netlist, delays, number)
            && exchange_cell(netlist, table, library, delays, number)
        {
            delays.trace();
            helped = true;
        }
    }
    helped
}

/// Exchanges cells for drives of them until no exchange of one instance's cell makes the longest path shorter. Takes no memory.
pub fn choose_drives(
    netlist: &mut Netlist,
    table: &DriveTable,
    library: &Library,
    delays: &mut Delays,
)
    requires sound { IsNetlist netlist.old }
    requires table { IsDriveTable library.now.cells table.now.drives.items }
    requires timed { CanBeTimed library.now netlist.old }
    requires models { HasDrives library.now netlist.old }
    requires delays { AreDelaysOf netlist.old library.now delays.old }
    ensures sound { IsNetlist netlist.new }
    ensures chosen { OnlyExchanges library.now netlist.old netlist.new }
    ensures timed { CanBeTimed library.now netlist.new }
    ensures delays { AreDelaysOf netlist.new library.now delays.new }
    ensures worst { (before after : ℕ) → IsWorst netlist.old library.now before → IsWorst netlist.new library.now after → after ≤ before }
    ensures driven { IsDriven netlist.new library.now }
{
    while pass(netlist, table, library, delays) {}
}
