// How long nets are: half the perimeter of the box of their pins, measured anew for the cells that a move touches.
use crate::board::{HEIGHT, Spot, spot_of};
use crate::total::{at, put, quotient};
use row_meaning::Pin;
use std::alloc::{AllocError, Global};

/// Nets of more pins are left out.
pub(crate) const MOST_PINS: usize = 100;

/// A net, and its length as measured anew.
#[derive(Clone, Copy)]
struct Fresh {
    net: usize,
    length: u64,
}

/// How long each net is; and of the present sum, whose number marks its nets: which of them are measured anew, and how long they were
/// together before and are after.
#[derive(Drop)]
pub(crate) struct Ledger {
    lengths: Vec<u64>,
    marks: Vec<u64>,
    sums: u64,
    fresh: Vec<Fresh>,
    before: u64,
    after: u64,
}

/// The height of a point of a cell in a row: odd rows are upside down.
fn height(row: usize, y: u64) -> u64 {
    let bottom = (row as u64).saturating_mul(HEIGHT);
    if row % 2 == 0 {
        bottom.saturating_add(y)
    } else {
        bottom.saturating_add(HEIGHT.saturating_sub(y))
    }
}

/// Half the perimeter of the box of pins.
fn half_box(spots: &[Spot], pins: &[Pin]) -> u64 {
    let mut left = u64::MAX;
    let mut right = 0;
    let mut low = u64::MAX;
    let mut high = 0;
    for pin in pins {
        let spot = spot_of(spots, pin.cell as usize);
        let x = spot.start.saturating_add(pin.x);
        let y = height(spot.row, pin.y);
        left = left.min(x);
        right = x.max(right);
        low = low.min(y);
        high = y.max(high);
    }
    right
        .saturating_sub(left)
        .saturating_add(high.saturating_sub(low))
}

/// Whether a net of so many pins counts.
pub(crate) fn counts(pins: usize) -> bool {
    pins > 1 && pins <= MOST_PINS
}

impl Ledger {
    /// For so many nets, which aren't measured yet.
    pub(crate) fn begin(alloc: Global, nets: usize) -> Result<Ledger, AllocError> {
        Ok(Ledger {
            lengths: vec![in alloc; 0; nets]?,
            marks: vec![in alloc; 0; nets]?,
            sums: 0,
            fresh: Vec::new(alloc),
            before: 0,
            after: 0,
        })
    }

    /// Measures all nets anew.
    pub(crate) fn renew(&mut self, spots: &[Spot], nets: &[Vec<Pin>]) {
        for net in 0..nets.len() {
            if counts(nets[net].len()) {
                put(&mut self.lengths, net, half_box(spots, &nets[net]));
            }
        }
    }

    /// Begins another sum, of no nets.
    pub(crate) fn begin_sum(&mut self) {
        self.sums = self.sums.saturating_add(1);
        self.fresh.clear();
        self.before = 0;
        self.after = 0;
    }

    /// Measures those nets of a list that aren't in the present sum yet.
    pub(crate) fn measure(
        &mut self,
        spots: &[Spot],
        nets: &[Vec<Pin>],
        list: &[u32],
    ) -> Result<(), AllocError> {
        for net in list {
            let net = *net as usize;
            if net < nets.len() && at(&self.marks, net) != self.sums {
                put(&mut self.marks, net, self.sums);
                let length = half_box(spots, &nets[net]);
                self.before = self.before.saturating_add(at(&self.lengths, net));
                self.after = self.after.saturating_add(length);
                self.fresh.push(Fresh { net, length })?;
            }
        }
        Ok(())
    }

    /// Says whether the nets of the present sum get longer by no more than `most`.
    pub(crate) fn is_within(&self, most: u64) -> bool {
        self.after <= self.before.saturating_add(most)
    }

    /// Takes the lengths that were measured anew.
    pub(crate) fn keep(&mut self) {
        for fresh in &self.fresh {
            put(&mut self.lengths, fresh.net, fresh.length);
        }
    }

    /// The length of a net on an average.
    pub(crate) fn mean(&self) -> u64 {
        let mut sum: u64 = 0;
        for length in &self.lengths {
            sum = sum.saturating_add(*length);
        }
        quotient(sum, self.lengths.len() as u64)
    }
}
