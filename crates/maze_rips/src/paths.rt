// The paths of nets, each under a key that its net keeps.
ghost use Rattle.std.specs.Prelude.{◌≡◌, ◌<◌, ℕ, [], IfOk, IfNone, IfSome, OnErr, OnOk, length, slice_get, take, Some, Option, List, ◌++◌, ◌∷◌};
ghost use Rattle.std.specs.Option.{option_map};
ghost use Rattle.slab.specs.Slab.{ContainsKey, SameValues};
ghost use Rattle.grid_core.specs.declared.grid.Node.{Node as AnyNode};
ghost use Rattle.grid_core.specs.Routes.{Tree};
ghost use Rattle.grid_core.specs.Shown.{shown_tree, tree_in};
ghost use Rattle.maze_rips.specs.Paths.{laid, paths_in, HasNow, HaveNone, IsOneMore};

use grid_core::{NetTree, Node, Routes};
use slab::Slab;
use std::alloc::{AllocError, Global};
use std::marker::Model;

/// The paths of all nets, seen as those of each net by its number, in their order. Each has a key, which its net keeps.
#[derive(Drop)]
pub(crate) struct Paths {
    kept: Slab<Vec<Node>>,
    keys: Vec<Vec<usize>>,
}

impl Model for Paths {
    ghost use Rattle.std.specs.Prelude.{List, map};
    ghost use Rattle.grid_core.specs.declared.grid.Node.{Node as AnyNode};

    ghost Value = { List (List (List AnyNode)) };

    ghost use Rattle.maze_rips.specs.Paths.{paths_under, AreKeys};

    ghost view = { λ p. map (paths_under p.kept) p.keys.items };

    ghost invariant = { λ p. AreKeys p.kept p.keys.items };
}

/// A path more is kept, under a key that led to none; the key is the net's last.
fn keep(
    kept: &mut Slab<Vec<Node>>,
    keys: &mut Vec<usize>,
    path: Vec<Node>,
) -> Result<(), AllocError>
    ensures kept { OnOk result (IsOneMore kept.old kept.new keys.old.items keys.new.items path) }
    ensures same { OnErr result (SameValues kept.old kept.new) }
    ensures same_keys { OnErr result (keys.new.items ≡ keys.old.items) }
{
    keys.reserve(1)?;
    let key = kept.insert(path)?;
    keys.push_reserved(key);
    Ok(())
}

/// The last key of a net goes, and its path with it.
fn give_last(kept: &mut Slab<Vec<Node>>, keys: &mut Vec<usize>) -> Option<Vec<Node>>
    requires lead { (at key : ℕ) → slice_get keys.old.items at ≡ Some key → ContainsKey kept.old key }
    ensures given { IfSome result (λ path. IsOneMore kept.new kept.old keys.new.items keys.old.items path) }
    ensures none { IfNone result (keys.old.items ≡ []) }
    ensures same { IfNone result (kept.new ≡ kept.old) }
    ensures same_keys { IfNone result (keys.new.items ≡ []) }
{
    let key = keys.pop()?;
    Some(kept.remove(key))
}

/// No keys for each of so many nets.
fn no_keys(alloc: Global, nets: usize) -> Result<Vec<Vec<usize>>, AllocError>
    ensures { IfOk result (λ keys. HaveNone nets keys.items) }
{
    let mut keys = Vec::with_capacity(alloc, nets)?;
    for _ in 0..nets {
        keys.push(Vec::new(alloc))?;
    }
    Ok(keys)
}

impl Paths {
    /// None of so many nets has a path.
    pub(crate) fn none(alloc: Global, nets: usize) -> Result<Self, AllocError>
        ensures size { IfOk result (λ p. length p ≡ nets) }
        ensures none { IfOk result (λ p. (k : ℕ) → paths_in p k ≡ []) }
    {
        let keys = no_keys(alloc, nets)?;
        Ok(Paths {
            kept: Slab::new(alloc),
            keys,
        })
    }

    /// How many nets there are.
    fn nets(&self) -> usize
        ensures { result ≡ length self.now }
    {
        self.keys.len()
    }

    /// How many paths a net has.
    pub(crate) fn count(&self, net: usize) -> usize
        requires { net < length self.now }
        ensures { result ≡ length (paths_in self.now net) }
    {
        self.keys[net].len()
    }

    /// A net gets a path more, behind those that it has.
    pub(crate) fn insert(&mut self, net: usize, path: Vec<Node>) -> Result<(), AllocError>
        requires { net < length self.old }
        ensures { OnOk result (HasNow net (paths_in self.old net ++ path.items ∷ []) self.old self.new) }
    {
        keep(&mut self.kept, &mut self.keys[net], path)
    }

    /// The last path of a net is taken out; none where it has none.
    fn take_last(&mut self, net: usize) -> Option<Vec<Node>>
        requires { net < length self.old }
        ensures taken { IfSome result (λ path. (rest : List (List AnyNode))
            × (paths_in self.old net ≡ rest ++ path.items ∷ []) × HasNow net rest self.old self.new) }
        ensures none { IfNone result (paths_in self.old net ≡ []) }
        ensures same { IfNone result (HasNow net [] self.old self.new) }
    {
        give_last(&mut self.kept, &mut self.keys[net])
    }

    /// The paths of a net are taken out, but for its first. It goes over these keys alone.
    pub(crate) fn tear(&mut self, net: usize)
        requires { net < length self.old }
        ensures { HasNow net (take 1 (paths_in self.old net)) self.old self.new }
    {
        while self.count(net) > 1 {
            self.take_last(net);
        }
    }

    /// The tree of which these are the net's paths is taken out.
    fn take_tree(&mut self, alloc: Global, net: usize) -> Result<Option<NetTree>, AllocError>
        requires net { net < length self.old }
        requires laid { (t : Option Tree) × (paths_in self.old net ≡ laid t) }
        ensures tree { IfOk result (λ tree. paths_in self.old net ≡ laid (option_map shown_tree tree)) }
        ensures others { OnOk result (HasNow net [] self.old self.new) }
    {
        let mut taken = Vec::with_capacity(alloc, self.count(net))?;
        while let Some(path) = self.take_last(net) {
            taken.push(path)?;
        }
        let Some(first) = taken.pop() else {
            return Ok(None);
        };
        taken.reverse();
        Ok(Some(NetTree {
            start: first[0],
            paths: taken,
        }))
    }

    /// The trees of which these are the paths. Takes memory for what holds the paths of each tree, and none for their nodes.
    pub(crate) fn into_routes(self, alloc: Global) -> Result<Routes, AllocError>
        requires laid { (k : ℕ) → k < length self → (t : Option Tree) × (paths_in self k ≡ laid t) }
        ensures size { IfOk result (λ r. length r ≡ length self) }
        ensures trees { IfOk result (λ r. (k : ℕ) → paths_in self k ≡ laid (tree_in r k)) }
    {
        let mut paths = self;
        let nets = paths.nets();
        let mut trees = Vec::with_capacity(alloc, nets)?;
        for net in 0..nets {
            trees.push(paths.take_tree(alloc, net)?)?;
        }
        Ok(Routes::new(trees))
    }
}
