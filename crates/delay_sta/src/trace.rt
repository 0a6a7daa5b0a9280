// The classes of a longest path.
ghost use Rattle.std.specs.Prelude.{◌≡◌, ◌↔◌, ◌<◌, Some, MatchOption, IsTrue, length, slice_index_or};
ghost use Rattle.cell_model.specs.Library.{Library as Cells};
ghost use Rattle.net_core.specs.Netlist.{Netlist as InMemory, IsNetlist};
ghost use Rattle.delay_sta.specs.Graph.{arrival_by};
ghost use Rattle.delay_sta.specs.Paths.{IsWorst};
ghost use Rattle.delay_sta.specs.Timed.{AreDelaysOf};
ghost use Rattle.delay_sta.specs.Exchanged.{IsTraced};
ghost use Rattle.delay_sta.specs.Traces.{IsLatestEnd, IsLatestArc, GoesBack};

use crate::arrivals::{Delays, worst};
use crate::graph::TimedArc;

/// An end at which paths arrive latest; none where none arrives.
fn latest_end(delays: &Delays) -> Option<u32>
    ensures { (n : InMemory) (l : Cells) → IsNetlist n → AreDelaysOf n l delays.now
        → MatchOption result (IsWorst n l 0) (IsLatestEnd n l delays.now.arrivals.items) }
{
    let worst = worst(delays);
    for class in &delays.ends {
        if let Some(time) = delays.arrival(*class) {
            if time == worst {
                return Some(*class);
            }
        }
    }
    None
}

impl Delays {
    /// Whether a path arrives by an arc at a time.
    fn arrives_by(&self, arc: &TimedArc, time: u128) -> bool
        ensures { IsTrue result ↔ (arrival_by self.now.arrivals.items arc.now ≡ Some time) }
    {
        if arc.begins {
            return arc.delay == time;
        }
        match self.arrival(arc.from) {
            Some(start) => arc.delay <= time && start == time - arc.delay,
            None => false,
        }
    }

    /// An arc with which a latest path to a class ends; none where none does.
    fn latest_arc(&self, class: u32) -> Option<TimedArc>
        ensures { MatchOption result ((x : TimedArc) → IsLatestArc self.now.arcs.items self.now.arrivals.items class x → ⊥)
            (IsLatestArc self.now.arcs.items self.now.arrivals.items class) }
    {
        let time = self.arrival(class)?;
        for arc in self.arcs_to(class) {
            if self.arrives_by(arc, time) {
                return Some(*arc);
            }
        }
        None
    }

    /// Marks a class where a latest path to it has a step, and goes back to the class from which the last one comes; none where the
    /// path begins with it.
    fn go_back(&mut self, class: u32) -> Option<u32>
        requires { class < length self.old.marks.items }
        ensures others { record self.new { marks = self.old.marks } ≡ self.old }
        ensures back { GoesBack self.old.arcs.items self.old.arrivals.items class self.old.marks.items self.new.marks.items result }
    {
        let arc = self.latest_arc(class)?;
        self.marks[class as usize] = true;
        if arc.begins {
            return None;
        }
        Some(arc.from)
    }

    /// Marks the classes to which the steps of a longest path lead, and no others. Takes no memory, and time for each class and the
    /// arcs of the path.
    pub fn trace(&mut self)
        requires { (n : InMemory) × (l : Cells) × IsNetlist n × AreDelaysOf n l self.old }
        ensures { (n : InMemory) (l : Cells) → IsNetlist n → AreDelaysOf n l self.old → AreDelaysOf n l self.new × IsTraced n l self.new.marks.items }
    {
        let mut at = latest_end(self);
        self.marks.fill(false);
        for k in (0..self.order().len()).rev() {
            let class = self.order()[k];
            if at == Some(class) {
                at = self.go_back(class);
            }
        }
    }
}
