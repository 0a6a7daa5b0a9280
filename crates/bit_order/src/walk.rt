// A walk from node to node along what they read.
ghost use Rattle.std.specs.Prelude.{◌≡◌, ◌+◌, ◌<◌, ◌≤◌, ◌^◌, [], length, map, replicate, slice_index, drop, IfOk, OnOk, MatchOption};
ghost use Rattle.std.specs.List.{All};
ghost use Rattle.bit_order.specs.declared.walk.Mark.TheVariants as mark;
ghost use Rattle.bit_order.specs.Walk.{IsWalkOf, IsLast, IsReadAt, IsRingFrom, Entered, Finished, Passed, Goes, Begun, Followed};

use std::alloc::{AllocError, Global};

/// How far the walk has come with a node.
#[derive(Clone, Copy)]
enum Mark {
    /// It wasn't met yet.
    New,
    /// It stands at this place of the path.
    Open(usize),
    /// It stands at this place of the order.
    Done(usize),
}

/// Nodes in order so far, and the path to the node that the walk has come to: each of its nodes reads the next.
#[derive(Drop)]
pub struct Walk {
    marks: Vec<Mark>,
    // How many of the nodes that it reads are in order, for each node.
    nexts: Vec<usize>,
    path: Vec<u32>,
    sorted: Vec<u32>,
}

impl Walk {
    /// A walk over so many nodes that has met none.
    pub fn start(alloc: Global, count: usize) -> Result<Walk, AllocError>
        ensures marks { IfOk result (λ w. w.marks.items ≡ replicate count mark.New) }
        ensures nexts { IfOk result (λ w. w.nexts.items ≡ replicate count 0) }
        ensures path { IfOk result (λ w. w.path.items ≡ []) }
        ensures sorted { IfOk result (λ w. w.sorted.items ≡ []) }
    {
        Ok(Walk {
            marks: vec![in alloc; Mark::New; count]?,
            nexts: vec![in alloc; 0; count]?,
            path: Vec::new(alloc),
            sorted: Vec::new(alloc),
        })
    }

    /// Puts a node at the end of the path.
    fn enter(&mut self, node: u32) -> Result<(), AllocError>
        requires { node < length self.old.marks.items }
        ensures { OnOk result (Entered self.old self.new node) }
    {
        self.marks[node as usize] = Mark::Open(self.path.len());
        self.path.push(node)?;
        Ok(())
    }

    /// Takes a node from the end of the path and puts it behind those in order.
    fn finish(&mut self, node: u32) -> Result<(), AllocError>
        requires inside { node < length self.old.marks.items }
        requires some { 0 < length self.old.path.items }
        ensures { OnOk result (Finished self.old self.new node) }
    {
        let _ = self.path.pop();
        self.marks[node as usize] = Mark::Done(self.sorted.len());
        self.sorted.push(node)?;
        Ok(())
    }

    /// Counts one more of what a node reads as in order.
    fn pass(&mut self, node: u32, next: usize)
        requires inside { node < length self.old.nexts.items }
        requires at { next ≡ slice_index self.old.nexts.items node }
        requires few { next + 1 < 2 ^ 64 }
        ensures { Passed self.old self.new node }
    {
        self.nexts[node as usize] = next + 1;
    }

    /// Goes on from the last node of the path, at which `next` nodes of those that it reads are in order, to the one
    /// behind these. The place of that one, if it stands on the path.
    fn step(
        &mut self,
        reads: &[Vec<u32>],
        node: u32,
        next: usize,
        read: u32,
    ) -> Result<Option<usize>, AllocError>
        requires walk { IsWalkOf (map (λ nodes. nodes.items) reads.now) self.old }
        requires inside { read < length reads.now }
        requires last { IsLast self.old.path.items node }
        requires at { next ≡ slice_index self.old.nexts.items node }
        requires read { IsReadAt (map (λ nodes. nodes.items) reads.now) node next read }
        requires few { next + 1 < 2 ^ 64 }
        ensures { IfOk result (λ found. MatchOption found
            (Goes (map (λ nodes. nodes.items) reads.now) self.old self.new)
            (λ first. IsRingFrom (map (λ nodes. nodes.items) reads.now) self.new first)) }
    {
        match self.marks[read as usize] {
            Mark::New => {
                self.enter(read)?;
                Ok(None)
            }
            Mark::Open(first) => Ok(Some(first)),
            Mark::Done(_) => {
                self.pass(node, next);
                Ok(None)
            }
        }
    }

    /// The last node of the path.
    fn last(&self) -> u32
        requires { 0 < length self.now.path.items }
        ensures { IsLast self.now.path.items result }
    {
        self.path[self.path.len() - 1]
    }

    /// One turn: the last node of the path is finished, or the walk goes on from it. The place of the path at which a
    /// ring begins, where the path has come back to itself.
    fn turn(&mut self, reads: &[Vec<u32>]) -> Result<Option<usize>, AllocError>
        requires walk { IsWalkOf (map (λ nodes. nodes.items) reads.now) self.old }
        requires inside { All (λ nodes. All (λ node. node < length reads.now) nodes.items) reads.now }
        requires some { 0 < length self.old.path.items }
        ensures { IfOk result (λ found. MatchOption found
            (Goes (map (λ nodes. nodes.items) reads.now) self.old self.new)
            (λ first. IsRingFrom (map (λ nodes. nodes.items) reads.now) self.new first)) }
    {
        let node = self.last();
        let next = self.nexts[node as usize];
        match reads[node as usize].get(next) {
            Some(read) => self.step(reads, node, next, *read),
            None => {
                self.finish(node)?;
                Ok(None)
            }
        }
    }

    /// Begins a path at a node that wasn't met yet, and does nothing at another one.
    pub fn begin(&mut self, root: u32) -> Result<(), AllocError>
        requires { root < length self.old.marks.items }
        ensures { OnOk result (Begun self.old self.new root) }
    {
        match self.marks[root as usize] {
            Mark::New => self.enter(root),
            Mark::Open(_) | Mark::Done(_) => Ok(()),
        }
    }

    /// Goes on until no path is left, or until the path comes back to itself: then the place of it at which the ring
    /// begins.
    pub fn follow(&mut self, reads: &[Vec<u32>]) -> Result<Option<usize>, AllocError>
        requires walk { IsWalkOf (map (λ nodes. nodes.items) reads.now) self.old }
        requires inside { All (λ nodes. All (λ node. node < length reads.now) nodes.items) reads.now }
        ensures { IfOk result (λ found. MatchOption found (Followed (map (λ nodes. nodes.items) reads.now) self.old self.new)
            (λ first. IsRingFrom (map (λ nodes. nodes.items) reads.now) self.new first)) }
    {
        while !self.path.is_empty() {
            if let Some(first) = self.turn(reads)? {
                return Ok(Some(first));
            }
        }
        Ok(None)
    }

    /// The path from a place on.
    pub fn ring(&self, alloc: Global, first: usize) -> Result<Vec<u32>, AllocError>
        requires { first ≤ length self.now.path.items }
        ensures { IfOk result (λ v. v.items ≡ drop first self.now.path.items) }
    {
        Vec::from_slice(alloc, &self.path[first..])
    }

    /// The nodes in order. Takes no memory.
    pub fn into_sorted(self) -> Vec<u32>
        ensures { result.items ≡ self.sorted.items }
    {
        let Walk { sorted, .. } = self;
        sorted
    }
}
