// Delays behind an exchange of one instance's cell.
ghost use Rattle.std.specs.Prelude.{◌≡◌, ◌+◌, ◌*◌, ◌^◌, ◌<◌, ◌≤◌, ◌↔◌, ℕ, IsTrue, map, length, take, drop, slice_index};
ghost use Rattle.std.specs.List.{All};
ghost use Rattle.net_core.specs.Places.{Stands, IsThere};
ghost use Rattle.net_core.specs.Netlist.{Netlist as InMemory, IsNetlist};
ghost use Rattle.cell_model.specs.declared.cell.Arc.{Arc as CellArc};
ghost use Rattle.delay_sta.specs.declared.graph.TimedArc.{TimedArc as ArcInTime};
ghost use Rattle.delay_sta.specs.Arcs.{arc_delay};
ghost use Rattle.delay_sta.specs.Loads.{input_capacitance};
ghost use Rattle.delay_sta.specs.Graph.{AreFound, group_of};
ghost use Rattle.delay_sta.specs.Timed.{CanBeTimed, AreDelaysOf};
ghost use Rattle.delay_sta.specs.Exchanged.{IsExchangeAt, IsSetTo};
ghost use Rattle.delay_sta.specs.Changes.{pin_load, ArePinClasses, AreLoads, IsOnlyArc, IsPlaced, AreRetimed};

use crate::arc::arc_delay;
use crate::arrivals::Delays;
use crate::graph::TimedArc;
use crate::loads::input_capacitance;
use crate::settle::{mark, settle};
use cell_checks::Library;
use cell_model::{Arc, Pin};
use net_core::Netlist;
use vlsi_base::Name;

/// So many of the classes, from the first on.
fn classes_from<'c>(classes: &'c [u32], first: u32, many: usize) -> &'c [u32]
    requires { first + many ≤ length classes.now }
    ensures { result.now ≡ take many (drop first classes.now) }
{
    let start = first as usize;
    &classes[start..start + many]
}

/// The classes of an instance's pins.
fn pin_classes(netlist: &Netlist, number: u32) -> &[u32]
    requires { number < length netlist.now.instances }
    ensures classes { ArePinClasses netlist.now number result.now }
    ensures inside { All (λ class. class < netlist.now.count) result.now }
    ensures few { length netlist.now.classes < 2 ^ 32 }
    ensures sound { IsNetlist netlist.now }
{
    let node = &netlist.nodes()[number as usize];
    let classes = netlist.classes();
    classes_from(classes, node.first, node.pins.as_slice().len())
}

/// The loads without those of pins with these names and classes, where a cell has these pins.
fn take_loads(loads: &mut [u64], classes: &[u32], names: &[Name], pins: &[Pin])
    requires each { length names.now ≡ length classes.now }
    requires inside { All (λ class. class < length loads.old) classes.now }
    requires had { (class : ℕ) → class < length loads.old → pin_load pins.now names.now classes.now class ≤ slice_index loads.old class }
    ensures many { length loads.new ≡ length loads.old }
    ensures each { (class : ℕ) → class < length loads.old
        → slice_index loads.new class + pin_load pins.now names.now classes.now class ≡ slice_index loads.old class }
{
    for k in 0..classes.len() {
        loads[classes[k] as usize] -= u64::from(input_capacitance(pins, &names[k]));
    }
}

/// The loads with those of pins with these names and classes, where a cell has these pins and the sums have room.
fn give_loads(loads: &mut [u64], classes: &[u32], names: &[Name], pins: &[Pin])
    requires each { length names.now ≡ length classes.now }
    requires inside { All (λ class. class < length loads.old) classes.now }
    requires room { (class : ℕ) → class < length loads.old → slice_index loads.old class + length names.now * 2 ^ 32 < 2 ^ 64 }
    ensures many { length loads.new ≡ length loads.old }
    ensures each { (class : ℕ) → class < length loads.old
        → slice_index loads.new class ≡ slice_index loads.old class + pin_load pins.now names.now classes.now class }
    ensures short { All (λ c. c < 2 ^ 32) (map (input_capacitance pins.now) names.now) }
{
    for k in 0..classes.len() {
        loads[classes[k] as usize] += u64::from(input_capacitance(pins, &names[k]));
    }
}

/// Whether an arc leads from one pin to the other.
fn is_between(arc: &Arc, from: &Name, to: &Name) -> bool
    ensures { IsTrue result ↔ ((arc.now.from ≡ from.now) × (arc.now.to ≡ to.now)) }
{
    arc.from.is_same(from) && arc.to.is_same(to)
}

/// How long the arc from one pin of a cell to another takes with a load; 0 where there is none.
fn time_between(arcs: &[Arc], from: &Name, to: &Name, load: u64) -> u128
    ensures short { result < 2 ^ 96 }
    ensures time { (a : CellArc) → IsOnlyArc arcs.now from.now to.now a → result ≡ arc_delay a load }
{
    for own in arcs {
        if is_between(own, from, to) {
            return arc_delay(own, load);
        }
    }
    0
}

/// How long an arc of an instance takes with a load.
fn time_of(
    netlist: &Netlist,
    library: &Library,
    places: &[usize],
    arc: &TimedArc,
    load: u64,
) -> u128
    requires cells { AreFound library.now.cells netlist.now.models places.now }
    requires placed { IsPlaced netlist.now library.now arc.now }
    ensures short { result < 2 ^ 96 }
    ensures time { (p : IsPlaced netlist.now library.now arc.now) → result ≡ arc_delay p.arc load }
{
    let node = &netlist.nodes()[arc.owner];
    let cell = &library.cells()[places[node.model]];
    let pins = node.pins.as_slice();
    time_between(
        cell.arcs.as_slice(),
        &pins[arc.input],
        &pins[arc.output],
        load,
    )
}

/// Gives the arcs to one class the times that they take with its load.
fn change_group(
    arcs: &mut [TimedArc],
    netlist: &Netlist,
    library: &Library,
    places: &[usize],
    load: u64,
)
    requires cells { AreFound library.now.cells netlist.now.models places.now }
    requires placed { (x : ArcInTime) → IsThere arcs.old x → IsPlaced netlist.now library.now x }
    ensures { AreRetimed netlist.now library.now load arcs.old arcs.new }
{
    for k in 0..arcs.len() {
        let mut arc = arcs[k];
        arc.delay = time_of(netlist, library, places, &arc, load);
        arcs[k] = arc;
    }
}

/// Gives the arcs to these classes the times that they take with the loads of classes, where the cells of models are at these places.
fn change_arcs(
    arcs: &mut [Vec<TimedArc>],
    netlist: &Netlist,
    library: &Library,
    classes: &[u32],
    by: (&[usize], &[u64]),
)
    requires cells { AreFound library.now.cells netlist.now.models by.0.now }
    requires loads { length by.1.now ≡ length arcs.old }
    requires inside { All (λ class. class < length arcs.old) classes.now }
    requires placed { (class : ℕ) (x : ArcInTime) → IsThere (group_of arcs.old class) x → IsPlaced netlist.now library.now x }
    ensures many { length arcs.new ≡ length arcs.old }
    ensures changed { (class : ℕ) → IsThere classes.now class
        → AreRetimed netlist.now library.now (slice_index by.entry.1.now class) (group_of arcs.old class) (group_of arcs.new class) }
    ensures others { (class : ℕ) → (IsThere classes.now class → ⊥) → group_of arcs.new class ≡ group_of arcs.old class }
{
    let (places, loads) = by;
    for class in classes {
        let class = *class as usize;
        change_group(&mut arcs[class], netlist, library, places, loads[class]);
    }
}

/// The loads of a netlist in which an instance has another cell, where its own is at the first place and the other at the second.
fn change_loads(
    loads: &mut [u64],
    netlist: &Netlist,
    library: &Library,
    number: u32,
    places: (usize, usize),
)
    requires timed { CanBeTimed library.now netlist.now }
    requires loads { AreLoads netlist.now library.now loads.old }
    requires exchange { IsExchangeAt library.now netlist.now number places.1 }
    requires was { (x : IsExchangeAt library.now netlist.now number places.1) → Stands library.now.cells places.0 x.was }
    ensures { (m : InMemory) → IsSetTo library.now netlist.now m number places.1 → AreLoads m library.now loads.new }
{
    let (old, new) = places;
    let cells = library.cells();
    let names = netlist.nodes()[number as usize].pins.as_slice();
    let classes = pin_classes(netlist, number);
    take_loads(loads, classes, names, cells[old].pins.as_slice());
    give_loads(loads, classes, names, cells[new].pins.as_slice());
}

impl Delays {
    /// Puts the cell at a place of the library in the place of an instance's, by its number; the delays are then those of the changed
    /// netlist. What is marked stays marked. Takes no memory, and time for each class, and for the arcs at the instance's pins.
    pub fn exchange(&mut self, netlist: &mut Netlist, library: &Library, number: u32, place: usize)
        requires sound { IsNetlist netlist.old }
        requires timed { CanBeTimed library.now netlist.old }
        requires delays { AreDelaysOf netlist.old library.now self.old }
        requires exchange { IsExchangeAt library.now netlist.old number place }
        ensures sound { IsNetlist netlist.new }
        ensures sets { IsSetTo library.now netlist.old netlist.new number place }
        ensures delays { AreDelaysOf netlist.new library.now self.new }
        ensures marks { self.new.marks ≡ self.old.marks }
    {
        let was = self.places[netlist.nodes()[number as usize].model];
        change_loads(&mut self.loads, netlist, library, number, (was, place));
        netlist.set_model(number, &library.cells()[place].name);
        let classes = pin_classes(netlist, number);
        change_arcs(
            &mut self.arcs,
            netlist,
            library,
            classes,
            (&self.places, &self.loads),
        );
        mark(&mut self.stale, classes);
        settle(
            &mut self.arrivals,
            &mut self.stale,
            &self.starts,
            &self.order,
            (&self.arcs, &self.reached),
        );
    }
}
