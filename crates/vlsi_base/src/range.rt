// Ranges of bits.
ghost use Rattle.std.specs.Prelude.{◌≡◌, ◌+◌, ◌≤◌, ◌^◌, IfOk};
ghost use Rattle.vlsi_base.specs.Range.{rising, falling, range_bits, is_ordered, range_width, least, greatest, range_span};

use std::alloc::{AllocError, Global};

/// `count` numbers that fall to `last`.
fn falling(alloc: Global, last: u32, count: u64) -> Result<Vec<u32>, AllocError>
    requires { last + count ≤ 2 ^ 32 }
    ensures { IfOk result (λ bits. bits.items ≡ falling last count) }
{
    let mut bits = Vec::new(alloc);
    let mut left = count;
    while left > 0 {
        left -= 1;
        bits.push((u64::from(last) + left) as u32)?;
    }
    Ok(bits)
}

/// `count` numbers that rise from `first`.
fn rising(alloc: Global, first: u32, count: u64) -> Result<Vec<u32>, AllocError>
    requires { first + count ≤ 2 ^ 32 }
    ensures { IfOk result (λ bits. bits.items ≡ rising first count) }
{
    let mut bits = Vec::new(alloc);
    let mut left = count;
    let mut next = u64::from(first);
    while left > 0 {
        bits.push(next as u32)?;
        left -= 1;
        next += 1;
    }
    Ok(bits)
}

/// A range of bits as it is written, `(left downto right)` or `(left to right)`, and the line of its parenthesis.
#[derive(Clone, Copy, PartialEq, Eq)]
pub struct Range {
    pub left: u32,
    /// Whether the word is `downto`.
    pub falls: bool,
    pub right: u32,
    pub line: u32,
}

impl Range {
    /// Whether the bounds stand in the order of the word: `downto` falls or stays, `to` rises or stays.
    pub fn is_ordered(self) -> bool
        ensures { result ≡ is_ordered self }
    {
        if self.falls {
            self.right <= self.left
        } else {
            self.left <= self.right
        }
    }

    /// How many bits the range has: none where its bounds don't stand in the order of its word.
    #[tactic(auto, using(crate::proofs::Ranges::length_of_range))]
    pub fn width(self) -> u64
        ensures { result ≡ range_width self }
    {
        let left = u64::from(self.left);
        let right = u64::from(self.right);
        if self.falls {
            (left + 1).saturating_sub(right)
        } else {
            (right + 1).saturating_sub(left)
        }
    }

    /// The number of the lesser bound, whichever the word.
    pub fn least(self) -> u32
        ensures { result ≡ least self }
    {
        if self.left <= self.right {
            self.left
        } else {
            self.right
        }
    }

    /// The number of the greater bound, whichever the word.
    pub fn greatest(self) -> u32
        ensures { result ≡ greatest self }
    {
        if self.left <= self.right {
            self.right
        } else {
            self.left
        }
    }

    /// How many bits there are from one bound to the other, both counted, whichever the word.
    pub fn span(self) -> u64
        ensures span { result ≡ range_span self }
        ensures most { result ≤ 2 ^ 32 }
    {
        u64::from(self.greatest()).saturating_sub(u64::from(self.least())) + 1
    }
    /// The numbers of the bits, from the left: none where the bounds don't stand in the order of the word. Takes memory for
    /// them.
    #[tactic(auto, using(crate::proofs::Ranges::length_of_range))]
    pub fn bits(self, alloc: Global) -> Result<Vec<u32>, AllocError>
        ensures { IfOk result (λ bits. bits.items ≡ range_bits self) }
    {
        let count = self.width();
        if self.falls {
            falling(alloc, self.right, count)
        } else {
            rising(alloc, self.left, count)
        }
    }
}
