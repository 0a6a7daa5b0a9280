// What is counted over the tokens.
ghost use Rattle.std.specs.Prelude.{◌≡◌, [], IfOk, not};
ghost use Rattle.std.specs.Bool.{OnTrue, OnFalse};
ghost use Rattle.std.specs.BTreeSet.{insert_key};
ghost use Rattle.std.specs.Cmp.Lexicographic.{slice_cmp};
ghost use Rattle.std.specs.Ordering.{nat_cmp};
ghost use Rattle.grammar_theory.specs.Marks.{is_declared, uncounted};
ghost use Rattle.vhdl_front.specs.Cursor.{names_of, state_of};

use std::alloc::{AllocError, Global};
use std::collections::BTreeSet;

/// What is counted over the tokens: the names that are declared, their bits, the operators of the expression that is
/// read, and the alternatives of its choice.
#[derive(Drop)]
pub struct Counts {
    pub names: BTreeSet<Vec<u8>>,
    pub bits: u64,
    pub operators: u32,
    pub alternatives: u32,
}

impl Counts {
    /// Nothing so far. Takes no memory.
    pub fn new(alloc: Global) -> Counts
        ensures { state_of result ≡ uncounted }
    {
        Counts {
            names: BTreeSet::new(alloc),
            bits: 0,
            operators: 0,
            alternatives: 0,
        }
    }

    /// Adds a name, unless it is there: then the answer is false.
    pub fn declare(&mut self, alloc: Global, name: &[u8]) -> Result<bool, AllocError>
        ensures fresh { IfOk result (λ added. added ≡ not (is_declared name.now (names_of self.old))) }
        ensures added { IfOk result (λ added. OnTrue added (names_of self.new ≡ insert_key (slice_cmp nat_cmp) (names_of self.old) name.now)) }
        ensures kept { IfOk result (λ added. OnFalse added (names_of self.new ≡ names_of self.old)) }
        ensures bits { self.new.bits ≡ self.old.bits }
        ensures operators { self.new.operators ≡ self.old.operators }
        ensures alternatives { self.new.alternatives ≡ self.old.alternatives }
    {
        let key = name.to_vec(alloc)?;
        let added = self.names.insert(key)?;
        Ok(added)
    }
}
