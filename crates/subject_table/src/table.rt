// The table of nodes.
ghost use Rattle.std.specs.Prelude.{◌≡◌, [], ◌+◌, ◌-◌, ◌<◌, ◌≤◌, ◌⊎◌, IfOk, IfSome, IfNone, not, ◌&&◌};
ghost use Rattle.graph_theory.specs.Graph.{fixed, ReadsBelow};
ghost use Rattle.subject_table.specs.View.{node_view, kinds, end_of};
ghost use Rattle.subject_table.specs.Grows.{IsSound, HasRoom, HasSortedSons, IsNode, IsKnown, Adds, node_value, logic_cost};
ghost use Rattle.subject_table.specs.Rules.{OneNode, IsNoConstant, IsInverse, IsNand};
ghost use Rattle.subject_table.specs.Makes.{Makes};

use indexmap::IndexSet;
use std::alloc::{AllocError, Global};

/// A node: a constant, an inverter, or a gate that is 0 where both of its inputs are 1.
#[derive(Clone, Copy, PartialEq, Eq, Hash)]
pub enum Node {
    Fixed(bool),
    Inv(u32),
    Nand(u32, u32),
}

/// The nodes behind inputs and registers, which have the numbers below `held`. No two are equal.
#[derive(Drop)]
pub struct Table {
    pub held: u32,
    pub nodes: IndexSet<Node>,
}

impl Table {
    /// A table of no nodes behind so many inputs and registers. Takes no memory.
    #[tactic(auto, using(crate::proofs::Tables::sound_empty))]
    pub fn new(alloc: Global, held: u32) -> Self
        ensures held { result.held ≡ held }
        ensures nodes { kinds result ≡ [] }
        ensures sound { IsSound result }
    {
        Table {
            held,
            nodes: IndexSet::new(alloc),
        }
    }

    /// The node of this number, where it is no input and no register.
    pub fn node(&self, number: u32) -> Option<Node>
        ensures some { IfSome result (λ kind. IsNode self.now number (node_view kind)) }
        ensures none { IfNone result ((number < self.now.held) ⊎ (end_of self.now ≤ number)) }
    {
        if number < self.held {
            return None;
        }
        self.nodes.get_index((number - self.held) as usize).copied()
    }

    /// The number of an equal node, which is added where there is none. Takes memory for it.
    pub fn add(&mut self, node: Node) -> Result<u32, AllocError>
        requires sound { IsSound self.now }
        requires below { ReadsBelow (end_of self.now) (node_view node) }
        requires sorted { HasSortedSons (node_view node) }
        requires room { HasRoom self.now (logic_cost (node_view node)) }
        ensures value { IfOk result (λ r. Adds self.old self.new (logic_cost (node_view node)) (node_value (node_view node)) r) }
        ensures made { IfOk result (λ r. Makes self.old self.new (OneNode (node_view node)) r) }
    {
        let (place, _) = self.nodes.insert_full(node)?;
        Ok(self.held + place as u32)
    }

    /// The inverse of a node. The inverse of an inverse is what that one reads.
    pub fn inv(&mut self, a: u32) -> Result<u32, AllocError>
        requires sound { IsSound self.now }
        requires below { a < end_of self.now }
        requires room { HasRoom self.now 1 }
        ensures value { IfOk result (λ r. Adds self.old self.new 1 (λ v. not (v a)) r) }
        ensures made { IfOk result (λ r. Makes self.old self.new (IsInverse a) r) }
    {
        match self.node(a) {
            Some(Node::Inv(b)) => Ok(b),
            Some(Node::Fixed(bit)) => self.add(Node::Fixed(!bit)),
            Some(Node::Nand(_, _)) => self.add(Node::Inv(a)),
            None => self.add(Node::Inv(a)),
        }
    }

    /// The bit that a node always has, where it is a constant.
    fn known(&self, a: u32) -> Option<bool>
        requires sound { IsSound self.now }
        ensures known { IfSome result (λ b. IsKnown self.now a b) }
        ensures some { IfSome result (λ b. IsNode self.now a (fixed b)) }
        ensures none { IfNone result (a < end_of self.now → IsNoConstant self.now.held (kinds self.now) a) }
    {
        match self.node(a) {
            Some(Node::Fixed(bit)) => Some(bit),
            Some(Node::Inv(_) | Node::Nand(_, _)) | None => None,
        }
    }

    /// The number that is 0 where both are 1. Its sons have no order, and constants and equal sons are simplified.
    pub fn nand(&mut self, a: u32, b: u32) -> Result<u32, AllocError>
        requires sound { IsSound self.now }
        requires first { a < end_of self.now }
        requires second { b < end_of self.now }
        requires room { HasRoom self.now 1 }
        ensures value { IfOk result (λ r. Adds self.old self.new 1 (λ v. not (v a && v b)) r) }
        ensures made { IfOk result (λ r. Makes self.old self.new (IsNand a b) r) }
    {
        if a == b {
            return self.inv(a);
        }
        if let Some(bit) = self.known(a) {
            return if bit {
                self.inv(b)
            } else {
                self.add(Node::Fixed(true))
            };
        }
        if let Some(bit) = self.known(b) {
            return if bit {
                self.inv(a)
            } else {
                self.add(Node::Fixed(true))
            };
        }
        if a < b {
            self.add(Node::Nand(a, b))
        } else {
            self.add(Node::Nand(b, a))
        }
    }
}
