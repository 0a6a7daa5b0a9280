// A netlist's classes, and gates put behind them.
ghost use Rattle.std.specs.Prelude.{◌≡◌, ◌≤◌, ◌<◌, ◌++◌, [], ◌-◌, take, drop, map, length, IfOk, OnOk, if◌then◌else◌};
ghost use Rattle.std.specs.List.{All};
ghost use Rattle.loon_wiring.specs.Stages.{next_class, ends_of, tied_class, is_read, read_place, set_places, EndsGroup, PutsGate, PutsRow, Moves, PutsBehind, PutsGroups, LimitsClass, LimitsAll};

use crate::repeater::{Repeater, Tie};
use std::alloc::{AllocError, Global};

/// The classes that the pins of a gate go to.
#[derive(Clone, Copy)]
struct Ends {
    high: usize,
    low: usize,
    read: usize,
    driven: usize,
}

impl Ends {
    fn of(self, tie: Tie) -> usize
        ensures { result ≡ tied_class self tie }
    {
        match tie {
            Tie::High => self.high,
            Tie::Low => self.low,
            Tie::Read => self.read,
            Tie::Driven => self.driven,
        }
    }
}

/// The place of the last pin that reads, where this one has a place.
fn place_after(tie: Tie, place: usize, found: usize) -> usize
    ensures { result ≡ (if is_read tie then place else found) }
{
    match tie {
        Tie::High => found,
        Tie::Low => found,
        Tie::Read => place,
        Tie::Driven => found,
    }
}

/// Puts the classes of a gate's pins behind the others; answers the place of the pin that reads.
fn push_pins(classes: &mut Vec<usize>, ties: &[Tie], ends: Ends) -> Result<usize, AllocError>
    requires { 0 < length ties.now }
    ensures classes { OnOk result (classes.new.items ≡ classes.old.items ++ map (tied_class ends) ties.now) }
    ensures input { IfOk result (λ k. k ≡ read_place (length classes.old.items) (length classes.old.items) ties.now) }
    ensures inside { IfOk result (λ k. k < length classes.new.items) }
{
    let mut input = classes.len();
    for tie in ties {
        input = place_after(*tie, classes.len(), input);
        classes.push(ends.of(*tie))?;
    }
    Ok(input)
}

/// Puts the terminals at these places into a class.
fn set_places(classes: &mut [usize], places: &[usize], class: usize)
    requires { All (λ place. place < length classes.old) places.now }
    ensures { classes.new ≡ set_places classes.old places.now class }
{
    for place in places {
        classes[*place] = class;
    }
}

/// Where a group ends that starts at a place of a list of so many.
fn group_end(many: usize, start: usize, limit: usize) -> usize
    requires some { 0 < limit }
    requires inside { start < many }
    ensures { EndsGroup many start limit result }
{
    if many - start <= limit {
        return many;
    }
    start + limit
}

/// The places of a list from one to another.
fn group(sinks: &[usize], start: usize, end: usize) -> &[usize]
    requires order { start ≤ end }
    requires inside { end ≤ length sinks.now }
    ensures { result.now ≡ take (end - start) (drop start sinks.now) }
{
    &sinks[start..end]
}

/// The class of each terminal so far, how many classes there were at first, the classes of the supplies, and the class that each
/// gate reads that was put in. Each gate drives a class of its own, numbered behind those before.
#[derive(Drop)]
pub struct Wiring {
    pub classes: Vec<usize>,
    pub first: u32,
    pub high: usize,
    pub low: usize,
    pub reads: Vec<usize>,
}

impl Wiring {
    /// How many classes there are, which is the class that the next gate drives.
    pub fn count(&self) -> usize
        ensures { result ≡ next_class self.now }
    {
        self.first as usize + self.reads.len()
    }

    fn ends(&self, read: usize) -> Ends
        ensures { result ≡ ends_of self.now read }
    {
        Ends {
            high: self.high,
            low: self.low,
            read,
            driven: self.count(),
        }
    }

    /// Puts a gate in that reads a class; answers the place of its input.
    fn put_gate(&mut self, ties: &[Tie], read: usize) -> Result<usize, AllocError>
        requires { 0 < length ties.now }
        ensures gate { IfOk result (λ input. PutsGate ties.now self.old self.new read input) }
        ensures inside { IfOk result (λ input. input < length self.new.classes.items) }
        ensures grown { OnOk result (length self.old.classes.items ≤ length self.new.classes.items) }
    {
        let ends = self.ends(read);
        let input = push_pins(&mut self.classes, ties, ends)?;
        self.reads.push(read)?;
        Ok(input)
    }

    /// Puts a gate in that reads a class, or two in a row; answers the place of the first one's input and the class that the last
    /// one drives.
    fn put_row(&mut self, repeater: &Repeater, read: usize) -> Result<(usize, usize), AllocError>
        requires { 0 < length repeater.now.ties.items }
        ensures row { IfOk result (λ row. PutsRow repeater.now self.old self.new read row.0 row.1) }
        ensures inside { IfOk result (λ row. row.0 < length self.new.classes.items) }
        ensures grown { OnOk result (length self.old.classes.items ≤ length self.new.classes.items) }
    {
        let first = self.count();
        let input = self.put_gate(&repeater.ties, read)?;
        if !repeater.twice {
            return Ok((input, first));
        }
        let second = self.count();
        self.put_gate(&repeater.ties, first)?;
        Ok((input, second))
    }

    /// Puts the terminals at these places into a class.
    fn move_group(&mut self, places: &[usize], class: usize)
        requires { All (λ place. place < length self.old.classes.items) places.now }
        ensures moved { Moves self.old self.new places.now class }
        ensures many { length self.new.classes.items ≡ length self.old.classes.items }
    {
        set_places(&mut self.classes, places, class);
    }

    /// Puts a group of sinks behind gates that read a class; answers the place of the first gate's input.
    fn put_behind(
        &mut self,
        repeater: &Repeater,
        class: usize,
        group: &[usize],
    ) -> Result<usize, AllocError>
        requires some { 0 < length repeater.now.ties.items }
        requires places { All (λ place. place < length self.old.classes.items) group.now }
        ensures behind { IfOk result (λ input. PutsBehind repeater.now self.old self.new class group.now input) }
        ensures inside { IfOk result (λ input. input < length self.new.classes.items) }
        ensures grown { OnOk result (length self.old.classes.items ≤ length self.new.classes.items) }
    {
        let (input, driven) = self.put_row(repeater, class)?;
        self.move_group(group, driven);
        Ok(input)
    }

    /// Puts the sinks of a class behind gates in groups; answers the sinks that it has then.
    fn round(
        &mut self,
        alloc: Global,
        repeater: &Repeater,
        class: usize,
        sinks: &[usize],
        limit: usize,
    ) -> Result<Vec<usize>, AllocError>
        requires size { 2 ≤ limit }
        requires many { limit < length sinks.now }
        requires some { 0 < length repeater.now.ties.items }
        requires places { All (λ place. place < length self.old.classes.items) sinks.now }
        ensures groups { IfOk result (λ inputs. PutsGroups repeater.now limit class self.old sinks.now [] self.new inputs.items) }
        ensures fewer { IfOk result (λ inputs. length inputs.items < length sinks.now) }
        ensures inside { IfOk result (λ inputs. All (λ place. place < length self.new.classes.items) inputs.items) }
        ensures grown { OnOk result (length self.old.classes.items ≤ length self.new.classes.items) }
    {
        let mut inputs = Vec::new(alloc);
        let mut start = 0;
        while start < sinks.len() {
            let end = group_end(sinks.len(), start, limit);
            let group = group(sinks, start, end);
            let input = self.put_behind(repeater, class, group)?;
            inputs.push(input)?;
            start = end;
        }
        Ok(inputs)
    }

    /// Puts in gates until a class has at most so many sinks.
    fn limit_class(
        &mut self,
        alloc: Global,
        repeater: &Repeater,
        class: usize,
        sinks: &[usize],
        limit: usize,
    ) -> Result<(), AllocError>
        requires size { 2 ≤ limit }
        requires some { 0 < length repeater.now.ties.items }
        requires places { All (λ place. place < length self.old.classes.items) sinks.now }
        ensures limited { OnOk result (LimitsClass repeater.now limit class self.old sinks.now self.new) }
        ensures grown { OnOk result (length self.old.classes.items ≤ length self.new.classes.items) }
    {
        if sinks.len() <= limit {
            return Ok(());
        }
        let mut left = self.round(alloc, repeater, class, sinks, limit)?;
        while left.len() > limit {
            left = self.round(alloc, repeater, class, &left, limit)?;
        }
        Ok(())
    }

    /// Puts in gates until no class has more than `limit` sinks: class by class, while one has more, its sinks are cut into groups
    /// of so many, and each group is put behind the repeater's gate, or two of them in a row. `loads` has the places of each
    /// class's sinks among the terminals. Takes memory for the pins of the gates; time for each sink and pin.
    pub fn limit_all(
        &mut self,
        alloc: Global,
        repeater: &Repeater,
        loads: &[Vec<usize>],
        limit: usize,
    ) -> Result<(), AllocError>
        requires size { 2 ≤ limit }
        requires some { 0 < length repeater.now.ties.items }
        requires places { All (λ sinks. All (λ place. place < length self.old.classes.items) sinks.items) loads.now }
        ensures { OnOk result (LimitsAll repeater.now limit 0 loads.now self.old self.new) }
    {
        for class in 0..loads.len() {
            self.limit_class(alloc, repeater, class, &loads[class], limit)?;
        }
        Ok(())
    }
}
