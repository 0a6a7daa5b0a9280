// Nodes without repetition.
ghost use Rattle.std.specs.Prelude.{true, false, ℕ, ◌≡◌, ◌+◌, ◌-◌, ◌^◌, ◌<◌, ◌≤◌, ◌++◌, ◌∷◌, ◌⊎◌, [], IfSome, IfNone, IfOk, OnOk, OnErr, IfErr, slice_get, Some, length};
ghost use Rattle.std.specs.List.{Contains};
ghost use Rattle.bdd_core.specs.Truths.{constant};
ghost use Rattle.bdd_core.specs.Decided.{IsBalanced};
ghost use Rattle.bdd_core.specs.Nodes.{height, raised_to, place, joined, IsNarrow, IsSon, IsMade, IsFull, IsWhole};

use crate::node::{BddError, Node};
use indexmap::IndexSet;
use std::alloc::Global;
use std::marker::Model;

fn find(nodes: &IndexSet<Node>, node: Node) -> Option<usize>
    ensures some { IfSome result (λ i. slice_get nodes.now.keys i ≡ Some node) }
    ensures none { IfNone result (Contains nodes.now.keys node → ⊥) }
{
    nodes.get_index_of(&node)
}

fn add(nodes: &mut IndexSet<Node>, node: Node) -> Result<(), BddError>
    requires { Contains nodes.old.keys node → ⊥ }
    ensures ok { OnOk result (nodes.new.keys ≡ nodes.old.keys ++ node ∷ []) }
    ensures err { OnErr result (nodes.new.keys ≡ nodes.old.keys) }
    ensures kind { IfErr result (λ e. e ≡ BddError.Memory) }
{
    match nodes.insert_full(node) {
        Ok(_) => Ok(()),
        Err(_) => Err(BddError::Memory),
    }
}

// The node with these sons, where their places fit.
fn narrow(variable: u32, low: usize, high: usize) -> Option<Node>
    ensures some { IfSome result (λ n. n ≡ record { variable = variable; low = low; high = high }) }
    ensures fits { IfSome result IsNarrow }
    ensures none { IfNone result ((2 ^ 32 ≤ low) ⊎ (2 ^ 32 ≤ high)) }
{
    let low = u32::try_from(low).ok()?;
    let high = u32::try_from(high).ok()?;
    Some(Node {
        variable,
        low,
        high,
    })
}

/// The nodes of a diagram, the sons before those above them. Place 0 is the constant 0, and place 1 the constant 1.
/// A node takes 12 bytes, its hash and its slot 8, and the table of hashes 5 to 11.
#[derive(Drop)]
pub(crate) struct Table {
    vars: u32,
    budget: u32,
    nodes: IndexSet<Node>,
}

impl Model for Table {
    ghost use Rattle.std.specs.Prelude.{◌≤◌, length};
    ghost use Rattle.std.specs.List.{All};
    ghost use Rattle.bdd_core.specs.Nodes.{Lists, lists_code, AreSound, IsNarrow, lists_of};

    ghost Value = { Lists };

    ghost coded = { lists_code };

    ghost view = { λ t. record { vars = t.vars; budget = t.budget; lists = lists_of t.vars t.nodes.keys } };

    ghost invariant = { λ t. AreSound t.vars t.nodes.keys (lists_of t.vars t.nodes.keys) × (length t.nodes.keys ≤ t.budget)
        × All IsNarrow t.nodes.keys };
}

impl Table {
    /// No nodes but the constants. Takes no memory.
    pub fn begin(alloc: Global, vars: u32, budget: u32) -> Self
        ensures vars { result.vars ≡ vars }
        ensures budget { result.budget ≡ budget }
        ensures lists { result.lists ≡ constant false ∷ constant true ∷ [] }
    {
        Table {
            vars,
            budget,
            nodes: IndexSet::new(alloc),
        }
    }

    /// How many nodes there are besides the constants. The table is whole.
    pub fn nodes(&self) -> u32
        ensures count { result + 2 ≡ length self.now.lists }
        ensures within { result ≤ self.now.budget }
        ensures whole { IsWhole self.now }
    {
        let _budget = self.budget;
        self.nodes.len() as u32
    }

    /// The variable of a node; of a constant, how many variables there are.
    pub fn variable(&self, at: usize) -> u32
        requires { at < length self.now.lists }
        ensures { result + height (place self.now.lists at) ≡ self.now.vars }
    {
        if at < 2 {
            return self.vars;
        }
        match self.nodes.get_index(at - 2) {
            Some(node) => node.variable,
            None => unreachable!(),
        }
    }

    /// How many variables there are.
    pub fn vars(&self) -> u32
        ensures { result ≡ self.now.vars }
    {
        self.vars
    }

    /// The place of a constant.
    pub fn constant(&self, bit: bool) -> usize
        ensures within { result < length self.now.lists }
        ensures place { place self.now.lists result ≡ constant bit }
    {
        let _ = &self.nodes;
        if bit { 1 } else { 0 }
    }

    /// The value of a constant.
    pub fn bit(&self, at: usize) -> bool
        requires within { at < length self.now.lists }
        requires constant { height (place self.now.lists at) ≡ 0 }
        ensures { place self.now.lists at ≡ constant result }
    {
        let _ = &self.nodes;
        at == 1
    }

    /// The value of a place that is a constant; each function is a whole truth list.
    pub fn known(&self, at: usize) -> Option<bool>
        ensures bit { IfSome result (λ b. place self.now.lists at ≡ constant b) }
        ensures balanced { (i : ℕ) → i < length self.now.lists → IsBalanced (place self.now.lists i) }
    {
        let _ = &self.nodes;
        match at {
            0 => Some(false),
            1 => Some(true),
            _ => None,
        }
    }

    /// The nodes of the two halves, by a variable that is no later than the node's own.
    pub fn halves(&self, at: usize, variable: u32) -> (usize, usize)
        requires within { at < length self.now.lists }
        requires early { height (place self.now.lists at) + variable ≤ self.now.vars }
        requires variable { variable < self.now.vars }
        ensures low { IsSon self.now.vars self.now.lists variable result.0 }
        ensures high { IsSon self.now.vars self.now.lists variable result.1 }
        ensures joined { raised_to (self.now.vars - variable) (place self.now.lists at)
            ≡ joined self.now.vars self.now.lists variable result.0 result.1 }
    {
        let _ = &self.nodes;
        if at < 2 {
            return (at, at);
        }
        match self.nodes.get_index(at - 2) {
            Some(node) => {
                if node.variable == variable {
                    (node.low as usize, node.high as usize)
                } else {
                    (at, at)
                }
            }
            None => unreachable!(),
        }
    }

    /// The node with these sons.
    pub fn make(&mut self, variable: u32, low: usize, high: usize) -> Result<usize, BddError>
        requires low { IsSon self.old.vars self.old.lists variable low }
        requires high { IsSon self.old.vars self.old.lists variable high }
        ensures vars { self.new.vars ≡ self.old.vars }
        ensures budget { self.new.budget ≡ self.old.budget }
        ensures ok { IfOk result (λ at. IsMade self.old self.new variable low high at) }
        ensures err { OnErr result (self.new.lists ≡ self.old.lists) }
        ensures over { IfErr result (λ e. e ≡ BddError.Budget → IsFull self.old variable low high) }
    {
        if low == high {
            return Ok(low);
        }
        let count = self.nodes.len();
        let budget = self.budget as usize;
        let Some(node) = narrow(variable, low, high) else {
            return Err(BddError::Budget);
        };
        if let Some(found) = find(&self.nodes, node) {
            return Ok(found + 2);
        }
        if count >= budget {
            return Err(BddError::Budget);
        }
        add(&mut self.nodes, node)?;
        Ok(count + 2)
    }
}
