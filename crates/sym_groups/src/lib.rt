//! Groups of numbers that are put together pair by pair: union-find with path halving (Tarjan and van
//! Leeuwen, 1984), where of two roots the lesser stays one.
#![tactic(auto)]

ghost use Rattle.std.specs.Prelude.{◌≡◌, ℕ, ◌<◌, ◌≤◌, length, slice_index_or, MatchBool, IfOk};
ghost use Rattle.sym_groups.specs.Ties.{Falls, Tied, SameTies, KeepsRoots, JoinsTies, Alone, LabelsTies};

use std::alloc::{AllocError, Global};
use std::marker::Model;

/// The numbers below a count, in groups. Contracts see where each points: to one at most as large, and a root to itself.
#[derive(Drop)]
pub struct Groups {
    parents: Vec<u32>,
}

impl Model for Groups {
    ghost use Rattle.std.specs.Prelude.{List, ℕ};
    ghost use Rattle.sym_groups.specs.Ties.{Falls};

    ghost Value = { List ℕ };

    ghost view = { λ g. g.parents.items };

    ghost invariant = { λ g. Falls g.parents.items };
}

/// The root of the group of `start`. Each pointer on the way then goes two steps.
fn root(parents: &mut [u32], start: usize) -> usize
    requires falls { Falls parents.old }
    requires within { start < length parents.old }
    ensures falls { Falls parents.new }
    ensures same { SameTies parents.old parents.new }
    ensures is_root { slice_index_or parents.new result 0 ≡ result }
    ensures low { result ≤ start }
    ensures roots { KeepsRoots parents.old parents.new }
    ensures tied { Tied parents.new start result }
{
    let mut at = start;
    let mut above = parents[at] as usize;
    while above != at {
        let top = parents[above];
        parents[at] = top;
        at = top as usize;
        above = parents[at] as usize;
    }
    at
}

/// Puts the groups of two numbers into one: the larger root then points to the smaller. Tells whether they were two.
fn join(parents: &mut [u32], a: u32, b: u32) -> bool
    requires falls { Falls parents.old }
    requires a_within { a < length parents.old }
    requires b_within { b < length parents.old }
    ensures falls { Falls parents.new }
    ensures joins { JoinsTies parents.old parents.new a b }
    ensures apart { MatchBool result (¬ (Tied parents.old a b)) (Tied parents.old a b) }
{
    let first = root(parents, a as usize);
    let second = root(parents, b as usize);
    if first < second {
        parents[second] = first as u32;
    } else {
        parents[first] = second as u32;
    }
    first != second
}

/// A label for each number: those of one group have the same.
fn labels(parents: &[u32], alloc: Global) -> Result<Vec<u32>, AllocError>
    requires { Falls parents.now }
    ensures count { IfOk result (λ labels. length labels.items ≡ length parents.now) }
    ensures labels { IfOk result (λ labels. LabelsTies parents.now labels.items) }
{
    let mut labels: Vec<u32> = Vec::with_capacity(alloc, parents.len())?;
    for i in 0..parents.len() {
        let parent = parents[i];
        if parent as usize == i {
            labels.push(parent)?;
        } else {
            let label = labels.as_slice()[parent as usize];
            labels.push(label)?;
        }
    }
    Ok(labels)
}

impl Groups {
    /// Each number below `count` alone. Takes memory for them.
    pub fn new(alloc: Global, count: u32) -> Result<Self, AllocError>
        ensures count { IfOk result (λ g. length g ≡ count) }
        ensures alone { IfOk result (λ g. Alone g) }
    {
        let mut parents = Vec::with_capacity(alloc, count as usize)?;
        for i in 0..count {
            parents.push(i)?;
        }
        Ok(Groups { parents })
    }

    /// Puts the groups of two numbers into one, and tells whether they were two. Takes no memory.
    pub fn join(&mut self, a: u32, b: u32) -> bool
        requires a_within { a < length self.old }
        requires b_within { b < length self.old }
        ensures joins { JoinsTies self.old self.new a b }
        ensures apart { MatchBool result (¬ (Tied self.old a b)) (Tied self.old a b) }
    {
        join(&mut self.parents, a, b)
    }

    /// A label for each number: those of one group have the same. Takes memory for them.
    pub fn labels(&self, alloc: Global) -> Result<Vec<u32>, AllocError>
        ensures count { IfOk result (λ labels. length labels.items ≡ length self.now) }
        ensures labels { IfOk result (λ labels. LabelsTies self.now labels.items) }
    {
        labels(&self.parents, alloc)
    }
}
