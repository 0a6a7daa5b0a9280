// Diagrams that count what they were asked for.
ghost use Rattle.std.specs.Prelude.{◌≡◌, ◌<◌, ◌≤◌, ◌↔◌, ◌∷◌, [], List, Bool, false, true, IsTrue, None, Some, IfOk, IfSome, IfNone, length};
ghost use Rattle.std.specs.List.{All};
ghost use Rattle.bool_expr.specs.Expression.{bit, IsOver as IsWithin};
ghost use Rattle.bool_expr.specs.View.{view};
ghost use Rattle.bdd_core.specs.Truths.{Truths, constant, truths, IsCountOf};
ghost use Rattle.bdd_core.specs.Branching.{truth_at, IsBranch};
ghost use Rattle.bdd_core.specs.Nodes.{raised, IsWhole};
ghost use Rattle.bdd_core.specs.Combined.{combined};
ghost use Rattle.bdd_core.specs.Counting.{Holds};
ghost use Rattle.bdd_core.specs.Diagram.{IsNode, function_of, levels_of, IsSplit, gate_of, choice_of, IsAnswer};
ghost use Rattle.bdd_core.specs.Asked.{IsAnswerOf};

use crate::node::{BddError, Branch, NodeId};
use crate::operators::{Operator, Triple, combine};
use crate::picking::bits_of_one;
use crate::table::Table;
use bool_expr::{Expr, Gate};
use indexmap::IndexMap;
use std::alloc::{AllocError, Global};
use std::marker::Model;

/// Reduced ordered diagrams of the functions that were asked for, over `vars` variables, with a budget of nodes.
///
/// Each question that has an answer adds its functions to those asked for. It is refused by `Budget` exactly where all of
/// them together count more truth lists than the budget, and by `Memory` where memory fails; from then on each question is
/// refused likewise.
#[derive(Drop)]
pub struct Diagrams {
    alloc: Global,
    table: Table,
    refused: Option<BddError>,
}

impl Model for Diagrams {
    ghost use Rattle.std.specs.Prelude.{◌≡◌, ◌+◌, Some, length};
    ghost use Rattle.bdd_core.specs.declared.node.BddError.TheVariants.{Budget};
    ghost use Rattle.bdd_core.specs.Diagram.{Diagram, diagram_code};

    ghost Value = { Diagram };

    ghost coded = { diagram_code };

    ghost view = { λ d. record { table = d.table; refused = d.refused } };

    ghost invariant = { λ d. d.refused ≡ Some Budget → length d.table.lists ≡ d.table.budget + 2 };
}

impl Diagrams {
    /// No function was asked for. Takes no memory.
    pub fn begin(alloc: Global, vars: u32, budget: u32) -> Self
        ensures vars { result.table.vars ≡ vars }
        ensures budget { result.table.budget ≡ budget }
        ensures holds { Holds [] result.table }
        ensures live { result.refused ≡ None }
    {
        let table = Table::begin(alloc, vars, budget);
        let _nodes = table.nodes();
        Diagrams {
            alloc,
            table,
            refused: None,
        }
    }

    /// How many truth lists the functions that were asked for count; after `Budget` the budget, and after `Memory` at most
    /// that.
    pub fn nodes(&self) -> u32
        ensures count { (functions : List Truths) → Holds functions self.now.table → IsCountOf functions result }
        ensures within { result ≤ self.now.table.budget }
        ensures full { self.now.refused ≡ Some BddError.Budget → result ≡ self.now.table.budget }
        ensures whole { IsWhole self.now.table }
    {
        let _ = &self.refused;
        self.table.nodes()
    }

    /// Whether two nodes stand for one function.
    pub fn same(&self, a: NodeId, b: NodeId) -> bool
        requires a { IsNode self.now a }
        requires b { IsNode self.now b }
        ensures { IsTrue result ↔ (function_of self.now a ≡ function_of self.now b) }
    {
        let _nodes = self.table.nodes();
        a.place == b.place
    }

    /// The first variable on which a node's function depends, with the nodes of the function with it 0 and 1; `None` exactly
    /// where the function is constant. Takes no memory.
    pub fn branch(&self, a: NodeId) -> Option<Branch>
        requires { IsNode self.now a }
        ensures none { IfNone result ((b : Bool) × (function_of self.now a ≡ raised self.now.table.vars (constant b))) }
        ensures low { IfSome result (λ b. IsNode self.now b.low × (levels_of self.now b.low < levels_of self.now a)) }
        ensures high { IfSome result (λ b. IsNode self.now b.high × (levels_of self.now b.high < levels_of self.now a)) }
        ensures branch { IfSome result (λ b. IsBranch self.now.table.vars (function_of self.now a) b.variable
            (function_of self.now b.low) (function_of self.now b.high)) }
        ensures split { IfSome result (λ b. IsSplit self.now a b.low b.high) }
    {
        let _nodes = self.table.nodes();
        let variable = self.table.variable(a.place);
        if variable >= self.table.vars() {
            return None;
        }
        let (low, high) = self.table.halves(a.place, variable);
        Some(Branch {
            variable,
            low: NodeId { place: low },
            high: NodeId { place: high },
        })
    }

    /// Bits of all variables on which a node's function is 1, that of variable 0 first; `None` exactly where it is 0 on all.
    /// Takes memory for these bits.
    pub fn pick_true(&self, a: NodeId) -> Result<Option<Vec<bool>>, AllocError>
        requires { IsNode self.now a }
        ensures length { IfOk result (λ o. IfSome o (λ bits. length bits.items ≡ self.now.table.vars)) }
        ensures one { IfOk result (λ o. IfSome o (λ bits. truth_at (function_of self.now a) bits.items ≡ true)) }
        ensures none { IfOk result (λ o. IfNone o (function_of self.now a ≡ raised self.now.table.vars (constant false))) }
    {
        let _nodes = self.table.nodes();
        if a.place == self.table.constant(false) {
            return Ok(None);
        }
        let bits = bits_of_one(self.alloc, &self.table, a.place)?;
        Ok(Some(bits))
    }

    // The node of an operator of three functions. Takes memory for its new nodes and for a table of this call.
    fn ask(
        &mut self,
        operator: Operator,
        x: NodeId,
        y: NodeId,
        z: NodeId,
    ) -> Result<NodeId, BddError>
        requires x { IsNode self.old x }
        requires y { IsNode self.old y }
        requires z { IsNode self.old z }
        ensures { IsAnswer self.old self.new
            (combined operator (function_of self.old x) (function_of self.old y) (function_of self.old z) ∷ [])
            (combined operator (function_of self.old x) (function_of self.old y) (function_of self.old z)) result }
    {
        if let Some(refusal) = self.refused {
            return Err(refusal);
        }
        let _before = self.table.nodes();
        let key = Triple {
            x: x.place,
            y: y.place,
            z: z.place,
        };
        let mut memo = IndexMap::new(self.alloc);
        let answer = combine(&mut self.table, &mut memo, operator, key, 0);
        let _after = self.table.nodes();
        match answer {
            Ok(place) => Ok(NodeId { place }),
            Err(refusal) => {
                self.refused = Some(refusal);
                Err(refusal)
            }
        }
    }

    /// The node of a gate of two functions, which is asked for. Takes memory for its new nodes and for a table of this call.
    pub fn apply(&mut self, gate: Gate, a: NodeId, b: NodeId) -> Result<NodeId, BddError>
        requires a { IsNode self.old a }
        requires b { IsNode self.old b }
        ensures { IsAnswer self.old self.new (gate_of gate (function_of self.old a) (function_of self.old b) ∷ [])
            (gate_of gate (function_of self.old a) (function_of self.old b)) result }
    {
        self.ask(Operator::Pair(gate), a, b, a)
    }

    // The node of a choice: the second function where the first is 1, and the third elsewhere.
    fn choice(&mut self, c: NodeId, a: NodeId, b: NodeId) -> Result<NodeId, BddError>
        requires c { IsNode self.old c }
        requires a { IsNode self.old a }
        requires b { IsNode self.old b }
        ensures { IsAnswer self.old self.new
            (choice_of (function_of self.old c) (function_of self.old a) (function_of self.old b) ∷ [])
            (choice_of (function_of self.old c) (function_of self.old a) (function_of self.old b)) result }
    {
        self.ask(Operator::Choice, c, a, b)
    }

    // A node, asked for again.
    fn again(&self, a: NodeId) -> Result<NodeId, BddError>
        requires { IsNode self.now a }
        ensures { IsAnswer self.now self.now (function_of self.now a ∷ []) (function_of self.now a) result }
    {
        let _nodes = self.table.nodes();
        match self.refused {
            Some(refusal) => Err(refusal),
            None => Ok(a),
        }
    }

    // The node of a constant.
    fn constant(&self, bit: bool) -> Result<NodeId, BddError>
        ensures { IsAnswer self.now self.now
            (raised self.now.table.vars (constant bit) ∷ []) (raised self.now.table.vars (constant bit)) result }
    {
        let place = self.table.constant(bit);
        self.again(NodeId { place })
    }

    /// The node of variable k, which is asked for. Takes memory for one node at most.
    pub fn variable(&mut self, k: u32) -> Result<NodeId, BddError>
        requires { k < self.old.table.vars }
        ensures { IsAnswer self.old self.new
            (truths self.old.table.vars (λ w. bit w k) ∷ []) (truths self.old.table.vars (λ w. bit w k)) result }
    {
        if let Some(refusal) = self.refused {
            return Err(refusal);
        }
        let _before = self.table.nodes();
        let zero = self.table.constant(false);
        let one = self.table.constant(true);
        let answer = self.table.make(k, zero, one);
        let _after = self.table.nodes();
        match answer {
            Ok(place) => Ok(NodeId { place }),
            Err(refusal) => {
                self.refused = Some(refusal);
                Err(refusal)
            }
        }
    }

    /// The node of an expression whose variable k has the function of the k-th node that is bound. The expression and all its
    /// subexpressions are asked for. Takes memory for their new nodes, and for a table at a time.
    #[tactic(auto, using(crate::proofs::Asking::bound_kept))]
    pub fn of_expr(&mut self, e: &Expr, bound: &[NodeId]) -> Result<NodeId, BddError>
        requires variables { IsWithin (view e.now) (length bound.now) }
        requires bound { All (λ a. IsNode self.old a) bound.now }
        ensures { IsAnswerOf self.old self.new bound.now (view e.now) result }
    {
        match e {
            Expr::Const(bit) => self.constant(*bit),
            Expr::Var(k) => self.again(bound[*k as usize]),
            Expr::Not(inner) => {
                let a = self.of_expr(inner, bound)?;
                self.apply(Gate::Nand, a, a)
            }
            Expr::Pair(gate, left, right) => {
                let a = self.of_expr(left, bound)?;
                let b = self.of_expr(right, bound)?;
                self.apply(*gate, a, b)
            }
            Expr::Choice(condition, first, second) => {
                let c = self.of_expr(condition, bound)?;
                let a = self.of_expr(first, bound)?;
                let b = self.of_expr(second, bound)?;
                self.choice(c, a, b)
            }
        }
    }
}
