// The cells that compute words.
ghost use Rattle.std.specs.Prelude.{◌≡◌, ◌↔◌, ◌<◌, ◌≤◌, ◌+◌, ◌^◌, ◌++◌, ◌∷◌, [], ℕ, Bool, All, List, map, take, length, nat_eq, IsTrue, OnOk, IfOk, IfSome, IfNone};
ghost use Rattle.std.specs.HashMap.{get};
ghost use Rattle.std.specs.Option.{option_copied};
ghost use Rattle.truth_tab.specs.Table.{bit, value_of};
ghost use Rattle.cell_match.specs.Places.{times, IsOrder};
ghost use Rattle.cell_match.specs.Cells.{inputs_of, IsOf, IsMatch};
ghost use Rattle.cell_match.specs.Matches.{Known, IsMoreOf, IsBegun, KnowsEach, AreMatches, IsTableOf, IsTable, IsFound};

use crate::gate::CellWord;
use arrayvec::ArrayVec;
use indexmap::IndexMap;
use std::alloc::{AllocError, Global};
use truth_tab::Truth;

/// A cell, and which variable stands at each of its inputs.
#[derive(Drop)]
pub struct Match {
    pub cell: usize,
    pub order: ArrayVec<u8, 6>,
}

fn copied(order: &[u8]) -> ArrayVec<u8, 6>
    requires { length order.now ≤ 6 }
    ensures { result.items ≡ order.now }
{
    let mut copy = ArrayVec::new();
    for place in order {
        copy.push(*place);
    }
    copy
}

fn has(order: &[u8], place: u8) -> bool
    ensures { IsTrue result ↔ (0 < times place order.now) }
{
    for other in order {
        if *other == place {
            return true;
        }
    }
    false
}

/// The word with its inputs put to variables.
fn ordered(word: Truth<6>, order: &[u8]) -> u64
    requires few { length order.now ≤ 6 }
    requires low { (i : ℕ) → 0 < times i order.now → i < 6 }
    ensures { (v : List Bool) → length v ≡ 6 → value_of result v ≡ value_of word.word (map (λ i. bit v i) order.now) }
{
    let put: Truth<6> = word.gathered(order);
    put.word
}

/// Enters a cell with an order, where none is entered with its word. Takes memory for it.
fn enter(
    cells: &[CellWord],
    k: usize,
    order: &[u8],
    map: &mut IndexMap<u64, Match>,
) -> Result<(), AllocError>
    requires few { inputs_of cells.now k ≤ 6 }
    requires there { k < length cells.now }
    requires order { IsOrder (inputs_of cells.now k) order.now }
    requires found { AreMatches cells.now (inputs_of cells.now k) (λ w. get nat_eq map.old w) }
    ensures found { OnOk result (AreMatches cells.now (inputs_of cells.now k) (λ w. get nat_eq map.new w)) }
    ensures grows { OnOk result (IsMoreOf k (λ w. get nat_eq map.old w) (λ w. get nat_eq map.new w)) }
    ensures every { OnOk result ((w : ℕ) → w < 2 ^ 64 → IsOf cells.now k order.now w → Known (λ w. get nat_eq map.new w) w) }
{
    let word = ordered(cells[k].word, order);
    if map.contains_key(&word) {
        return Ok(());
    }
    map.insert(
        word,
        Match {
            cell: k,
            order: copied(order),
        },
    )?;
    Ok(())
}

/// Enters a cell with each order that begins so. Takes memory for them.
fn fill(
    cells: &[CellWord],
    k: usize,
    order: &[u8],
    map: &mut IndexMap<u64, Match>,
) -> Result<(), AllocError>
    requires few { inputs_of cells.now k ≤ 6 }
    requires there { k < length cells.now }
    requires begun { IsBegun (inputs_of cells.now k) order.now }
    requires found { AreMatches cells.now (inputs_of cells.now k) (λ w. get nat_eq map.old w) }
    ensures found { OnOk result (AreMatches cells.now (inputs_of cells.now k) (λ w. get nat_eq map.new w)) }
    ensures grows { OnOk result (IsMoreOf k (λ w. get nat_eq map.old w) (λ w. get nat_eq map.new w)) }
    ensures every { OnOk result (KnowsEach cells.now k order.now (λ w. get nat_eq map.new w)) }
{
    let inputs = cells[k].inputs;
    if order.len() == inputs as usize {
        return enter(cells, k, order, map);
    }
    for place in 0..inputs {
        if !has(order, place) {
            let longer = more(order, place);
            fill(cells, k, longer.as_slice(), map)?;
        }
    }
    Ok(())
}

/// The list with a number behind it.
fn more(order: &[u8], place: u8) -> ArrayVec<u8, 6>
    requires { length order.now < 6 }
    ensures { result.items ≡ order.now ++ place ∷ [] }
{
    let mut longer = copied(order);
    longer.push(place);
    longer
}

/// The cells of so many inputs, by the words that they compute. Takes memory for them.
fn matches(
    alloc: Global,
    cells: &[CellWord],
    inputs: u8,
) -> Result<IndexMap<u64, Match>, AllocError>
    requires { (k : ℕ) → inputs_of cells.now k ≤ 6 }
    ensures { IfOk result (λ m. IsTableOf cells.now inputs (λ w. get nat_eq m w)) }
{
    let mut map = IndexMap::new(alloc);
    for k in 0..cells.len() {
        if cells[k].inputs == inputs {
            fill(cells, k, &[], &mut map)?;
        }
    }
    Ok(map)
}

/// For each number of inputs the cells by their words.
#[derive(Drop)]
pub struct Table {
    pub maps: Vec<IndexMap<u64, Match>>,
}

impl Table {
    /// The table of a list of cells; among cells that compute one word the first is taken. Takes memory for each order of each
    /// cell's inputs.
    pub fn new(alloc: Global, cells: &[CellWord]) -> Result<Table, AllocError>
        requires { (k : ℕ) → inputs_of cells.now k ≤ 6 }
        ensures { IfOk result (λ t. IsTable cells.now t.maps.items) }
    {
        let mut maps = Vec::new(alloc);
        for inputs in 0..7u8 {
            maps.push(matches(alloc, cells, inputs)?)?;
        }
        Ok(Table { maps })
    }

    /// The cell that computes a word over so many variables.
    pub fn find(&self, inputs: usize, word: u64) -> Option<&Match>
        requires { inputs < length self.now.maps.items }
        ensures { IsFound self.now.maps.items inputs word (option_copied result) }
    {
        self.maps[inputs].get(&word)
    }
}
