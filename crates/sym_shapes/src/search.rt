// The ways along links to one place.
ghost use Rattle.std.specs.Prelude.{◌≡◌, ℕ, ◌<◌, List, length, MatchOption, IfOk, OnOk};
ghost use Rattle.std.specs.List.Sorted.{IsNonDecreasingBy, IsPermutation};
ghost use Rattle.sym_shapes.specs.Shape.{Shape};
ghost use Rattle.sym_shapes.specs.Chain.{IsChain};
ghost use Rattle.sym_shapes.specs.Joints.{Leads};
ghost use Rattle.sym_shapes.specs.Search.{step, Falls, Follows, StepsDiffer, AreOver};
ghost use Rattle.sym_shapes.specs.Search.{HasLink, HasStep, IsSeen, IsSearch, GoesOn, Spread, EndWithin, IsFirstFrom};

use crate::forest::Link;
use std::alloc::{AllocError, Global};

/// A place, and the number of the step that it goes on to. Step 0 is the goal.
#[derive(Clone, Copy)]
pub struct Step {
    pub place: u32,
    pub next: usize,
}

/// The steps of a search, and which places have one.
#[derive(Drop)]
struct Search {
    steps: Vec<Step>,
    seen: Vec<bool>,
}

impl Search {
    /// The goal alone, among `count` places.
    fn new(alloc: Global, count: usize, goal: u32) -> Result<Self, AllocError>
        requires { goal < count }
        ensures count { IfOk result (λ s. length s.seen.items ≡ count) }
        ensures goal { IfOk result (λ s. (step s.steps.items 0).place ≡ goal) }
        ensures search { IfOk result (λ s. (links : List Link) → IsSearch links s.steps.items s.seen.items) }
    {
        let mut seen = vec![in alloc; false; count]?;
        seen[goal as usize] = true;
        let mut steps = Vec::new(alloc);
        steps.push(Step {
            place: goal,
            next: 0,
        })?;
        Ok(Search { steps, seen })
    }

    /// Gives a place a step that goes on to another, unless it has one.
    fn reach(&mut self, place: u32, next: usize) -> Result<(), AllocError>
        requires within { place < length self.old.seen.items }
        requires next { next < length self.old.steps.items }
        ensures on { OnOk result (GoesOn self.old.steps.items self.new.steps.items self.old.seen.items self.new.seen.items) }
        ensures seen { OnOk result (IsSeen self.new.seen.items place) }
        ensures search { OnOk result ((links : List Link) → HasLink links (step self.old.steps.items next).place place
            → IsSearch links self.old.steps.items self.old.seen.items → IsSearch links self.new.steps.items self.new.seen.items) }
    {
        if !self.seen[place as usize] {
            self.seen[place as usize] = true;
            self.steps.push(Step { place, next })?;
        }
        Ok(())
    }

    /// Reaches the other end of each link from the place of a step. The links stand in the order of the places from which
    /// they lead.
    fn spread(&mut self, links: &[Link], at: usize) -> Result<(), AllocError>
        requires at { at < length self.old.steps.items }
        requires ordered { IsNonDecreasingBy (λ l. l.from) links.now }
        requires ends { EndWithin links.now (length self.old.seen.items) }
        requires search { IsSearch links.now self.old.steps.items self.old.seen.items }
        ensures on { OnOk result (GoesOn self.old.steps.items self.new.steps.items self.old.seen.items self.new.seen.items) }
        ensures search { OnOk result (IsSearch links.now self.new.steps.items self.new.seen.items) }
        ensures spread { OnOk result (Spread links.now self.new.seen.items (step self.old.steps.items at).place) }
    {
        let place = self.steps[at].place;
        let mut k = first_from(links, place);
        while k < links.len() && links[k].from == place {
            self.reach(links[k].to, at)?;
            k += 1;
        }
        Ok(())
    }
}

/// The first of the links that lead from a place or from a later one, in the order of those places.
fn first_from(links: &[Link], place: u32) -> usize
    requires { IsNonDecreasingBy (λ l. l.from) links.now }
    ensures { IsFirstFrom links.now place result }
{
    links.partition_point(|link| link.from < place)
}

/// Puts links in the order of the places from which they lead.
pub fn in_order(links: &mut Vec<Link>) -> Result<(), AllocError>
    ensures same { IsPermutation links.old.items links.new.items }
    ensures ordered { OnOk result (IsNonDecreasingBy (λ l. l.from) links.new.items) }
{
    links.sort_by_key(|link| link.from)?;
    Ok(())
}

/// A step for each place to which links lead from the goal, one of `count` places. Takes memory for a step and a mark a
/// place.
pub fn steps_from(
    alloc: Global,
    links: &[Link],
    count: usize,
    goal: u32,
) -> Result<Vec<Step>, AllocError>
    requires goal { goal < count }
    requires ordered { IsNonDecreasingBy (λ l. l.from) links.now }
    requires ends { EndWithin links.now count }
    ensures goal { IfOk result (λ steps. (step steps.items 0).place ≡ goal) }
    ensures falls { IfOk result (λ steps. Falls steps.items) }
    ensures follows { IfOk result (λ steps. Follows (HasLink links.now) steps.items) }
    ensures differ { IfOk result (λ steps. StepsDiffer steps.items) }
    ensures all { IfOk result (λ steps. (place : ℕ) → Leads links.now goal place → HasStep steps.items place) }
{
    let mut search = Search::new(alloc, count, goal)?;
    let mut at = 0;
    while at < search.steps.len() {
        search.spread(links, at)?;
        at += 1;
    }
    Ok(search.steps)
}

/// The number of the step of a place, if it has one.
pub fn step_of(steps: &[Step], place: u32) -> Option<usize>
    ensures { MatchOption result (¬ (HasStep steps.now place)) (λ k. (k < length steps.now) × ((step steps.now k).place ≡ place)) }
{
    steps.iter().position(|step| step.place == place)
}

/// The places from that of a step to the goal.
pub fn way(alloc: Global, steps: &[Step], start: usize) -> Result<Vec<u32>, AllocError>
    requires start { start < length steps.now }
    requires falls { Falls steps.now }
    ensures { IfOk result (λ places. (shapes : List Shape) → AreOver shapes steps.now
        → IsChain shapes places.items (step steps.now start).place (step steps.now 0).place) }
{
    let mut at = start;
    let mut places = Vec::new(alloc);
    places.push(steps[at].place)?;
    while at != 0 {
        at = steps[at].next;
        places.push(steps[at].place)?;
    }
    Ok(places)
}
