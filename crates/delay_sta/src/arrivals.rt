// What is found of the delays of a netlist.
ghost use Rattle.std.specs.Prelude.{◌≡◌, ◌<◌, None, false, length, slice_index, slice_index_or};
ghost use Rattle.cell_model.specs.Library.{Library as Cells};
ghost use Rattle.net_core.specs.Netlist.{Netlist as InMemory, IsNetlist};
ghost use Rattle.delay_sta.specs.Paths.{IsWorst};
ghost use Rattle.delay_sta.specs.Graph.{group_of};
ghost use Rattle.delay_sta.specs.Timed.{AreDelaysOf};

use crate::graph::TimedArc;

/// When paths arrive in the classes of a netlist.
#[derive(Drop)]
pub struct Delays {
    // The greatest arrival of each class, in femtoseconds; none where no path comes to it.
    pub(crate) arrivals: Vec<Option<u128>>,
    // The load of each class, in femtofarads.
    pub(crate) loads: Vec<u64>,
    // The classes at which paths end.
    pub(crate) ends: Vec<u32>,
    // The classes; behind a class to which steps lead stand those to which paths go on from there.
    pub(crate) order: Vec<u32>,
    // The arrivals by paths without a step.
    pub(crate) starts: Vec<Option<u128>>,
    // The arcs to each class.
    pub(crate) arcs: Vec<Vec<TimedArc>>,
    // The classes to which paths go on from each class.
    pub(crate) reached: Vec<Vec<u32>>,
    // The place of the cell of each model.
    pub(crate) places: Vec<usize>,
    // Whether the arrival of each class has to be taken anew.
    pub(crate) stale: Vec<bool>,
    // Whether each class is one to which a step of the traced path leads.
    pub(crate) marks: Vec<bool>,
}

impl Delays {
    /// The greatest arrival of a class, in femtoseconds; none where no path comes to it, or there is no such class. Takes no memory.
    pub fn arrival(&self, class: u32) -> Option<u128>
        ensures { result ≡ slice_index_or self.now.arrivals.items class None }
    {
        match self.arrivals.get(class as usize) {
            Some(arrival) => *arrival,
            None => None,
        }
    }

    /// The load of each class, by its number, in femtofarads. Takes no memory.
    pub fn loads(&self) -> &[u64]
        ensures { result.now ≡ self.now.loads.items }
    {
        &self.loads
    }

    /// The arcs to a class; none where there is no such class. Takes no memory.
    pub(crate) fn arcs_to(&self, class: u32) -> &[TimedArc]
        ensures { result.now ≡ group_of self.now.arcs.items class }
    {
        match self.arcs.get(class as usize) {
            Some(arcs) => arcs,
            None => &[],
        }
    }

    /// The place in the library of the cell of a model, by the model's place. Takes no memory.
    pub fn cell(&self, model: usize) -> usize
        requires { model < length self.now.places.items }
        ensures { result ≡ slice_index self.now.places.items model }
    {
        self.places[model]
    }

    /// Whether a class is one to which a step of the path leads that was traced last. Takes no memory.
    pub fn is_marked(&self, class: u32) -> bool
        ensures { result ≡ slice_index_or self.now.marks.items class false }
    {
        match self.marks.get(class as usize) {
            Some(mark) => *mark,
            None => false,
        }
    }

    /// The classes, each once; behind a class to which steps lead stand those to which paths go on from there. Takes no memory.
    pub fn order(&self) -> &[u32]
        ensures { result.now ≡ self.now.order.items }
    {
        &self.order
    }
}

/// The greatest time, in femtoseconds, of all paths that end at an output port or at the data pin of a flip-flop; 0 where there is
/// none. Takes no memory, and time for each such end.
pub fn worst(delays: &Delays) -> u128
    ensures { (n : InMemory) (l : Cells) → IsNetlist n → AreDelaysOf n l delays.now → IsWorst n l result }
{
    let mut worst = 0;
    for class in &delays.ends {
        if let Some(time) = delays.arrival(*class) {
            worst = worst.max(time);
        }
    }
    worst
}
