// Tables.
ghost use Rattle.std.specs.Prelude.{◌≡◌, ℕ, ◌<◌, ◌≤◌, All, Bool, not, ◌&&◌, map, take, List, length, slice_set};
ghost use Rattle.truth_tab.specs.Table.{bit, row_bit, value_of, NamesEachPlaceOnce};

use crate::rows::{at, changed, gather, inverse, pattern, row_count};

/// A function of K variables, 0 to 6 of them: bit `n` of the word is its value in row `n`, where variable `k` has bit `k` of `n`.
/// The bits of further rows say nothing.
#[derive(Clone, Copy, PartialEq, Eq)]
pub struct Truth<const K: usize> {
    pub word: u64,
}

/// A place for each of K variables.
#[derive(Clone, Copy, PartialEq, Eq)]
pub struct Order<const K: usize> {
    pub places: [u8; K],
}

/// The word whose bit in each of the first rows is what the expression says, and 0 in the others.
macro_rules! word_of_rows {
    ($rows:expr, $row:ident, $value:expr) => {{
        let rows = $rows;
        let mut word: u64 = 0;
        for $row in 0..rows {
            if $value {
                word |= 1 << $row;
            }
        }
        word
    }};
}

impl<const K: usize> Truth<K> {
    /// The function that is variable `k`.
    pub fn var(k: usize) -> Truth<K>
        requires few { K ≤ 6 }
        requires there { k < K }
        ensures { (w : List Bool) → length w ≤ K → value_of result.word w ≡ bit w k }
    {
        Truth { word: pattern(k) }
    }

    /// The function that is everywhere the same.
    pub fn constant(v: bool) -> Truth<K>
        requires { K ≤ 6 }
        ensures { (w : List Bool) → length w ≤ K → value_of result.word w ≡ v }
    {
        Truth {
            word: if v { u64::MAX } else { 0 },
        }
    }

    pub fn not(self) -> Truth<K>
        requires { K ≤ 6 }
        ensures { (w : List Bool) → length w ≤ K → value_of result.word w ≡ not (value_of self.entry.word w) }
    {
        Truth {
            word: inverse(self.word),
        }
    }

    pub fn and(self, o: Truth<K>) -> Truth<K>
        ensures { (w : List Bool) → value_of result.word w ≡ (value_of self.entry.word w && value_of o.entry.word w) }
    {
        Truth {
            word: self.word & o.word,
        }
    }

    /// The function with a value put in for variable `k`, on which it no longer depends.
    pub fn cofactor(self, k: usize, v: bool) -> Truth<K>
        requires few { K ≤ 6 }
        requires there { k < K }
        ensures { (w : List Bool) → k < length w → length w ≤ K → value_of result.word w ≡ value_of self.entry.word (slice_set w k v) }
    {
        Truth {
            word: word_of_rows!(row_count(K), row, at(self.word, changed(row, k as u8, v))),
        }
    }

    /// The function over J variables that reads, for its variable `i`, the variable at place `i` of the list.
    pub fn gathered<const J: usize>(self, places: &[u8]) -> Truth<J>
        requires few { K ≤ 6 }
        requires few_variables { J ≤ 6 }
        requires each { length places.now ≤ K }
        requires there { All (λ p. p < J) places.now }
        ensures { (w : List Bool) → length w ≤ J → value_of result.word w ≡ value_of self.entry.word (map (λ p. bit w p) places.now) }
    {
        Truth {
            word: word_of_rows!(row_count(J), row, at(self.word, gather(places, row))),
        }
    }

    /// The function with its variables put to other places.
    pub fn permute(self, p: Order<K>) -> Truth<K>
        requires few { K ≤ 6 }
        requires once { NamesEachPlaceOnce K p.places }
        ensures { (w : List Bool) → length w ≤ K → value_of result.word w ≡ value_of self.entry.word (map (λ i. bit w i) p.entry.places) }
    {
        self.gathered(&p.places)
    }

    /// The same function over further variables.
    pub fn expand<const J: usize>(self) -> Truth<J>
        requires few { K ≤ J }
        requires few_variables { J ≤ 6 }
        ensures whole { (w : List Bool) → length w ≡ J → value_of result.word w ≡ value_of self.entry.word (take K w) }
        ensures short { (w : List Bool) → length w ≤ K → value_of result.word w ≡ value_of self.entry.word w }
    {
        let places: [u8; 6] = [0, 1, 2, 3, 4, 5];
        self.gathered(&places[..K])
    }
}
