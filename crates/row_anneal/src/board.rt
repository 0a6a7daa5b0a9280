// Rows of cells, and where each cell stands.
use crate::ledger::{Ledger, counts};
use crate::total::{at, cell_at, number, put, quotient};
use row_meaning::{Cells, Pin};
use std::alloc::{AllocError, Global};

/// How far it is from column to column.
pub(crate) const PITCH: u64 = 500;

/// How high a row is.
pub(crate) const HEIGHT: u64 = 5000;

/// Where a cell stands: its row, its place in the row, and where it begins.
#[derive(Clone, Copy)]
pub(crate) struct Spot {
    pub(crate) row: usize,
    pub(crate) place: usize,
    pub(crate) start: u64,
}

/// Cells of a row from one place to before another, the first of which begins at `start`.
#[derive(Clone, Copy)]
pub(crate) struct Stretch {
    pub(crate) row: usize,
    pub(crate) first: usize,
    pub(crate) end: usize,
    pub(crate) start: u64,
}

/// Rows of cells with their widths, how wide a row may get, where each cell stands, the cells that stand in rows, for each cell the nets of
/// its pins, and how long the nets are.
#[derive(Drop)]
pub(crate) struct Board {
    pub(crate) rows: Vec<Vec<u32>>,
    pub(crate) wide: Vec<u64>,
    pub(crate) limit: u64,
    pub(crate) spots: Vec<Spot>,
    pub(crate) members: Vec<u32>,
    pub(crate) nets_of: Vec<Vec<u32>>,
    pub(crate) ledger: Ledger,
}

/// Where a cell stands; at the beginning of the lowest row, where it stands in none.
pub(crate) fn spot_of(spots: &[Spot], cell: usize) -> Spot {
    match spots.get(cell) {
        Some(spot) => *spot,
        None => Spot {
            row: 0,
            place: 0,
            start: 0,
        },
    }
}

/// Puts down where a cell stands.
pub(crate) fn put_spot(spots: &mut [Spot], cell: usize, spot: Spot) {
    if cell < spots.len() {
        spots[cell] = spot;
    }
}

/// Puts down where the cells of a stretch of a row stand, each right behind the one before. Gives where it ends.
fn settle_row(spots: &mut [Spot], row: &[u32], widths: &[u64], stretch: Stretch) -> u64 {
    let mut start = stretch.start;
    for place in stretch.first..stretch.end.min(row.len()) {
        let cell = cell_at(row, place);
        let spot = Spot {
            row: stretch.row,
            place,
            start,
        };
        put_spot(spots, cell, spot);
        start = start.saturating_add(at(widths, cell));
    }
    start
}

/// Puts down at which places the cells of a row stand, from a place on.
fn number_row(spots: &mut [Spot], row: &[u32], first: usize) {
    for place in first..row.len() {
        let cell = cell_at(row, place);
        if cell < spots.len() {
            spots[cell].place = place;
        }
    }
}

impl Board {
    /// Puts down where the cells of a stretch stand. Gives where it ends.
    pub(crate) fn settle(&mut self, cells: &Cells, stretch: Stretch) -> u64 {
        if stretch.row < self.rows.len() {
            let row = &self.rows[stretch.row];
            settle_row(&mut self.spots, row, &cells.widths, stretch)
        } else {
            stretch.start
        }
    }

    /// Puts down at which places the cells of a row stand, from a place on.
    pub(crate) fn number_places(&mut self, row: usize, first: usize) {
        if row < self.rows.len() {
            number_row(&mut self.spots, &self.rows[row], first);
        }
    }

    /// Has the cells of each row stand close together, and measures all nets anew. Takes time for each cell and each pin.
    pub(crate) fn pack(&mut self, cells: &Cells) {
        for row in 0..self.rows.len() {
            let whole = Stretch {
                row,
                first: 0,
                end: usize::MAX,
                start: cells.left,
            };
            let end = self.settle(cells, whole);
            put(&mut self.wide, row, end.saturating_sub(cells.left));
        }
        self.ledger.renew(&self.spots, &cells.nets);
    }

    /// How many cells a row has.
    pub(crate) fn places(&self, row: usize) -> usize {
        if row < self.rows.len() {
            self.rows[row].len()
        } else {
            0
        }
    }
}

/// The rows again, in new memory.
pub(crate) fn copied(alloc: Global, rows: &[Vec<u32>]) -> Result<Vec<Vec<u32>>, AllocError> {
    let mut made = Vec::with_capacity(alloc, rows.len())?;
    for row in rows {
        let mut copy = Vec::with_capacity(alloc, row.len())?;
        for cell in row {
            copy.push(*cell)?;
        }
        made.push(copy)?;
    }
    Ok(made)
}

/// The cells of rows one behind another.
fn members_of(alloc: Global, rows: &[Vec<u32>]) -> Result<Vec<u32>, AllocError> {
    let mut members = Vec::new(alloc);
    for row in rows {
        for cell in row {
            members.push(*cell)?;
        }
    }
    Ok(members)
}

/// Puts a net into the lists of the cells of its pins.
fn list_net(lists: &mut [Vec<u32>], pins: &[Pin], net: u32) -> Result<(), AllocError> {
    for pin in pins {
        let cell = pin.cell as usize;
        if cell < lists.len() {
            lists[cell].push(net)?;
        }
    }
    Ok(())
}

/// For each cell the nets of its pins, without those of too many pins or of one.
fn nets_of(alloc: Global, cells: &Cells) -> Result<Vec<Vec<u32>>, AllocError> {
    let mut lists = Vec::new(alloc);
    for _ in 0..cells.widths.len() {
        lists.push(Vec::new(alloc))?;
    }
    for net in 0..cells.nets.len() {
        let pins = &cells.nets[net];
        if counts(pins.len()) {
            list_net(&mut lists, pins, number(net))?;
        }
    }
    Ok(lists)
}

/// How wide a row may get where it was narrower: the share of a row, in whole columns, and two columns and a third of the widest cell,
/// but not more than that cell.
fn limit_of(members: &[u32], widths: &[u64], rows: usize) -> u64 {
    let mut sum: u64 = 0;
    let mut widest: u64 = 0;
    for cell in members {
        let width = at(widths, *cell as usize);
        sum = sum.saturating_add(width);
        widest = width.max(widest);
    }
    let share = quotient(sum, (rows as u64).saturating_mul(PITCH));
    let more = (widest / PITCH / 3).saturating_add(2).min(widest / PITCH);
    share.saturating_add(more).saturating_mul(PITCH)
}

impl Board {
    /// What is kept of these rows. Takes memory for each cell and each pin.
    pub(crate) fn begin(
        alloc: Global,
        rows: &[Vec<u32>],
        cells: &Cells,
    ) -> Result<Board, AllocError> {
        let nowhere = Spot {
            row: 0,
            place: 0,
            start: 0,
        };
        let members = members_of(alloc, rows)?;
        let limit = limit_of(&members, &cells.widths, rows.len());
        let mut board = Board {
            rows: copied(alloc, rows)?,
            wide: vec![in alloc; 0; rows.len()]?,
            limit,
            spots: vec![in alloc; nowhere; cells.widths.len()]?,
            members,
            nets_of: nets_of(alloc, cells)?,
            ledger: Ledger::begin(alloc, cells.nets.len())?,
        };
        board.pack(cells);
        Ok(board)
    }
}
