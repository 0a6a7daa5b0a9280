// A cell goes to another place, and the cell there comes back or makes room.
use crate::board::{Board, Spot, Stretch, put_spot};
use crate::total::{at, cell_at, number, put, put_cell};
use row_meaning::Cells;
use std::alloc::AllocError;

/// A change: a cell goes from one spot to another. Where `back` holds, the cell there comes back; otherwise `other` is the cell itself,
/// and the spots are of different rows.
#[derive(Clone, Copy)]
pub(crate) struct Change {
    pub(crate) cell: usize,
    pub(crate) other: usize,
    pub(crate) from: Spot,
    pub(crate) to: Spot,
    pub(crate) back: bool,
}

impl Change {
    /// The change that undoes this one.
    pub(crate) fn turned(self) -> Change {
        Change {
            cell: self.cell,
            other: self.other,
            from: self.to,
            to: self.from,
            back: self.back,
        }
    }

    /// Says whether nothing changes, or a cell would move within its row.
    pub(crate) fn is_none(self) -> bool {
        self.cell == self.other && (self.back || self.from.row == self.to.row)
    }

    /// How far from each other in a row the two places are; none where they are in different rows.
    pub(crate) fn distance(self) -> Option<usize> {
        if self.from.row == self.to.row {
            Some(self.from.place.abs_diff(self.to.place))
        } else {
            None
        }
    }

    /// The stretches in which cells are shifted: between the two places of one row, or behind each of two.
    fn stretches(self) -> (Stretch, Stretch) {
        let one = self.from.row == self.to.row;
        let low = Stretch {
            row: self.from.row,
            first: self.from.place.min(self.to.place),
            end: self.from.place.max(self.to.place).saturating_add(1),
            start: self.from.start.min(self.to.start),
        };
        (
            if one { low } else { behind(self.from) },
            if one {
                Stretch { end: 0, ..low }
            } else {
                behind(self.to)
            },
        )
    }
}

/// The cells of a row from a spot on.
fn behind(spot: Spot) -> Stretch {
    Stretch {
        row: spot.row,
        first: spot.place,
        end: usize::MAX,
        start: spot.start,
    }
}

/// Says whether a row may get so wide: within the limit, or no wider than it is.
fn may_be(new: u64, old: u64, limit: u64) -> bool {
    new <= limit || new <= old
}

impl Board {
    /// The cell at a place of a row.
    pub(crate) fn cell(&self, row: usize, place: usize) -> usize {
        if row < self.rows.len() {
            cell_at(&self.rows[row], place)
        } else {
            0
        }
    }

    /// Puts a cell at a place of a row.
    fn put(&mut self, spot: Spot, cell: usize) {
        if spot.row < self.rows.len() {
            put_cell(&mut self.rows[spot.row], spot.place, number(cell));
        }
    }

    /// Says whether no row gets too wide by a change.
    pub(crate) fn has_room(&self, widths: &[u64], change: Change) -> bool {
        let width = at(widths, change.cell);
        let from = at(&self.wide, change.from.row);
        let to = at(&self.wide, change.to.row);
        if !change.back {
            return to.saturating_add(width) <= self.limit;
        }
        let other = at(widths, change.other);
        change.from.row == change.to.row
            || may_be(
                from.saturating_add(other).saturating_sub(width),
                from,
                self.limit,
            ) && may_be(
                to.saturating_add(width).saturating_sub(other),
                to,
                self.limit,
            )
    }

    /// Puts down where the cells of a change stand after it, while all others stay.
    pub(crate) fn move_spots(&mut self, change: Change) {
        if change.back {
            put_spot(&mut self.spots, change.other, change.from);
        }
        put_spot(&mut self.spots, change.cell, change.to);
    }

    /// Measures the nets of a cell anew.
    fn measure(&mut self, cells: &Cells, cell: usize) -> Result<(), AllocError> {
        if cell < self.nets_of.len() {
            let list = &self.nets_of[cell];
            self.ledger.measure(&self.spots, &cells.nets, list)?;
        }
        Ok(())
    }

    /// Measures the nets of the cells of a change anew, and no others.
    pub(crate) fn measure_two(&mut self, cells: &Cells, change: Change) -> Result<(), AllocError> {
        self.ledger.begin_sum();
        self.measure(cells, change.cell)?;
        self.measure(cells, change.other)
    }

    /// Measures the nets of the cells of a stretch too.
    fn measure_stretch(&mut self, cells: &Cells, stretch: Stretch) -> Result<(), AllocError> {
        for place in stretch.first..stretch.end.min(self.places(stretch.row)) {
            let cell = self.cell(stretch.row, place);
            self.measure(cells, cell)?;
        }
        Ok(())
    }

    /// Takes the cell at a spot out of its row.
    fn take_out(&mut self, spot: Spot) {
        if spot.row < self.rows.len() && spot.place < self.rows[spot.row].len() {
            let _ = self.rows[spot.row].remove(spot.place);
        }
    }

    /// Puts a cell into a row, before the cell at a place.
    fn put_in(&mut self, spot: Spot, cell: usize) -> Result<(), AllocError> {
        if spot.row < self.rows.len() && spot.place <= self.rows[spot.row].len() {
            self.rows[spot.row].insert(spot.place, number(cell))?;
        }
        Ok(())
    }

    /// A row gets wider by a cell, and less wide by another.
    fn widen(&mut self, row: usize, more: u64, less: u64) {
        let wide = at(&self.wide, row);
        let new = wide.saturating_add(more).saturating_sub(less);
        put(&mut self.wide, row, new);
    }

    /// Puts the cells of a change into the rows as it says.
    pub(crate) fn arrange(&mut self, cells: &Cells, change: Change) -> Result<(), AllocError> {
        let width = at(&cells.widths, change.cell);
        if change.back {
            let other = at(&cells.widths, change.other);
            self.put(change.from, change.other);
            self.put(change.to, change.cell);
            self.widen(change.from.row, other, width);
            self.widen(change.to.row, width, other);
        } else {
            self.take_out(change.from);
            self.put_in(change.to, change.cell)?;
            self.number_places(change.from.row, change.from.place);
            self.number_places(change.to.row, change.to.place);
            self.widen(change.from.row, 0, width);
            self.widen(change.to.row, width, 0);
        }
        Ok(())
    }

    /// Shifts the cells behind those of a change that was made, and undoes it all unless their nets get longer by no more than `most`.
    /// Says whether it stays.
    pub(crate) fn shift_within(
        &mut self,
        cells: &Cells,
        change: Change,
        most: u64,
    ) -> Result<bool, AllocError> {
        let (first, second) = change.stretches();
        let _ = self.settle(cells, first);
        let _ = self.settle(cells, second);
        self.ledger.begin_sum();
        self.measure_stretch(cells, first)?;
        self.measure_stretch(cells, second)?;
        if self.ledger.is_within(most) {
            self.ledger.keep();
            return Ok(true);
        }
        self.move_spots(change.turned());
        self.arrange(cells, change.turned())?;
        let _ = self.settle(cells, first);
        let _ = self.settle(cells, second);
        Ok(false)
    }
}
