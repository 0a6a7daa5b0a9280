// Simulated annealing in whole numbers (Kirkpatrick, Gelatt and Vecchi 1983; of cells in rows: Sechen and Sangiovanni-Vincentelli's
// TimberWolf, 1985). How fast it cools and how far cells go hang on the share of moves that are accepted, which is to stay near a fixed one
// (Lam and Delosme 1988).
use crate::board::{Board, PITCH, Spot, copied, spot_of};
use crate::change::Change;
use crate::total::{at, below, between, cell_at, quotient};
use rand_core::SeedableRng;
use rand_core::utils::NextWord;
use rand_pcg::Pcg32;
use row_meaning::Cells;
use std::alloc::{AllocError, Global};

/// About how many moves a level has in all, and for each cell at least and at most.
const MOVES: usize = 150_000;

const LEAST_MOVES: usize = 25;

const MOST_MOVES: usize = 200;

/// The most levels.
const LEVELS: u32 = 1000;

/// The whole of the rows, as a window.
const WHOLE: u64 = 65536;

/// How many of 256 moves are to be accepted.
const WANTED: u64 = 90;

/// The heat below which shifted cells count, and the heat at which all is frozen.
const COOL: u64 = 15 * PITCH;

const FROZEN: u64 = PITCH / 5;

/// Cells in one row that are no further from each other are always exchanged with those between them shifted.
const NEAR: usize = 6;

/// A level: how much longer nets may get, about; how far a cell goes, as a part of `WHOLE`; and whether shifted cells count.
#[derive(Clone, Copy)]
struct Level {
    heat: u64,
    window: u64,
    exact: bool,
}

/// A part of so many rows or places, and not less than `least`.
fn part(many: usize, window: u64, least: usize) -> usize {
    let share = (many as u64).saturating_mul(window) / WHOLE;
    (share as usize).max(least)
}

/// The heat times the natural logarithm of one over a random fraction: its logarithm to base 2 has as its whole part the leading zeros
/// of a word, and the part behind the point is drawn from the word's last bits.
fn most_by(word: u32, heat: u64) -> u64 {
    let parts = (u64::from(word.leading_zeros()) + 1) * 256 - u64::from(word % 256);
    heat.saturating_mul(parts).saturating_mul(177) / 65536
}

/// Where a cell begins at a place of a row, in an exchange or before the cell that stands there.
fn start_at(board: &Board, cells: &Cells, row: usize, place: usize) -> u64 {
    if place < board.places(row) {
        spot_of(&board.spots, board.cell(row, place)).start
    } else {
        cells.left.saturating_add(at(&board.wide, row))
    }
}

/// The change of a cell and the place to which it goes; `moves` says that it needn't be an exchange.
fn change_to(board: &Board, cells: &Cells, cell: usize, to: Spot, moves: bool) -> Change {
    let from = spot_of(&board.spots, cell);
    let back = to.place < board.places(to.row) && (!moves || to.row == from.row);
    let other = if back {
        board.cell(to.row, to.place)
    } else {
        cell
    };
    Change {
        cell,
        other,
        from,
        to,
        back,
    }
}

/// The change by three words: which cell, to which row, and to which place.
fn choose(board: &Board, cells: &Cells, window: u64, generator: &mut Pcg32) -> Change {
    let u = generator.next_word();
    let v = generator.next_word();
    let w = generator.next_word();
    let cell = cell_at(&board.members, below(u, board.members.len()));
    let from = spot_of(&board.spots, cell);
    let reach = part(board.rows.len(), window, 1);
    let top = from
        .row
        .saturating_add(reach)
        .min(board.rows.len().saturating_sub(1));
    let row = between(v / 8, from.row.saturating_sub(reach), top);
    let many = board.places(row);
    let near = quotient(
        (from.place as u64).saturating_mul(many as u64),
        board.places(from.row) as u64,
    ) as usize;
    let reach = part(many, window, 3);
    let end = near.saturating_add(reach).min(many);
    let place = between(w, near.saturating_sub(reach), end);
    let start = start_at(board, cells, row, place);
    change_to(board, cells, cell, Spot { row, place, start }, v % 8 == 0)
}

/// What a move does: nothing; or two cells change places, or one goes elsewhere; or so that others behind it have to be shifted yet.
#[derive(Clone, Copy)]
enum Outcome {
    Stays,
    Changes,
    Shifts,
}

/// Says whether the cells between or behind those of a change are to be shifted with it.
fn shifts_at_once(level: Level, change: Change) -> bool {
    match change.distance() {
        Some(distance) => level.exact || distance <= NEAR,
        None => level.exact,
    }
}

/// One move: it is made where the nets of its cells get longer by no more than a random amount.
fn try_move(
    board: &mut Board,
    cells: &Cells,
    level: Level,
    generator: &mut Pcg32,
) -> Result<Outcome, AllocError> {
    let change = choose(board, cells, level.window, generator);
    let most = most_by(generator.next_word(), level.heat);
    if change.is_none() || !board.has_room(&cells.widths, change) {
        return Ok(Outcome::Stays);
    }
    board.move_spots(change);
    board.measure_two(cells, change)?;
    if !board.ledger.is_within(most) {
        board.move_spots(change.turned());
        return Ok(Outcome::Stays);
    }
    board.arrange(cells, change)?;
    if change.back && at(&cells.widths, change.cell) == at(&cells.widths, change.other) {
        board.ledger.keep();
        return Ok(Outcome::Changes);
    }
    shift(board, cells, level, change, most)
}

/// The rest of a move after which other cells have to be shifted: at once, or later together with others.
fn shift(
    board: &mut Board,
    cells: &Cells,
    level: Level,
    change: Change,
    most: u64,
) -> Result<Outcome, AllocError> {
    if !shifts_at_once(level, change) {
        board.ledger.keep();
        return Ok(Outcome::Shifts);
    }
    if board.shift_within(cells, change, most)? {
        Ok(Outcome::Changes)
    } else {
        Ok(Outcome::Stays)
    }
}

/// The moves of a level. Where a quarter as many as there are cells have left others to be shifted, all are packed. Gives how many of 256
/// changed something.
fn run_level(
    board: &mut Board,
    cells: &Cells,
    level: Level,
    generator: &mut Pcg32,
) -> Result<u64, AllocError> {
    let many = board.members.len();
    let each = quotient(MOVES as u64, many as u64) as usize;
    let moves = many.saturating_mul(each.clamp(LEAST_MOVES, MOST_MOVES));
    let mut made: u64 = 0;
    let mut loose: usize = 0;
    for _ in 0..moves {
        match try_move(board, cells, level, generator)? {
            Outcome::Stays => {}
            Outcome::Changes => made = made.saturating_add(1),
            Outcome::Shifts => {
                made = made.saturating_add(1);
                loose = loose.saturating_add(1);
            }
        }
        if loose > many / 4 {
            board.pack(cells);
            loose = 0;
        }
    }
    board.pack(cells);
    Ok(quotient(made.saturating_mul(256), moves as u64))
}

/// How much colder the next level is, where so many of 256 moves changed something: slowest where about as many are as should be.
fn cooled(heat: u64, made: u64) -> u64 {
    if made > 246 {
        heat / 2
    } else if made > 204 {
        heat - heat / 10
    } else if made > 38 {
        heat - heat / 20
    } else {
        heat - heat / 5
    }
}

/// The next level: somewhat colder, and the window narrower where fewer moves changed something than should, and else wider.
fn next(level: Level, made: u64) -> Level {
    let heat = cooled(level.heat, made);
    let window = level
        .window
        .saturating_mul(made.saturating_add(256 - WANTED))
        / 256;
    Level {
        heat,
        window: window.min(WHOLE),
        exact: heat < COOL,
    }
}

/// Another placement of the cells of rows in as many rows, mostly one with shorter nets: by simulated annealing across rows, by the words
/// of the generator with this seed. It takes memory for each cell and each pin. Nothing is promised of the rows: `are_fair` checks them.
pub fn anneal(
    alloc: Global,
    rows: &[Vec<u32>],
    cells: &Cells,
    seed: u32,
) -> Result<Vec<Vec<u32>>, AllocError> {
    let mut board = Board::begin(alloc, rows, cells)?;
    let mut generator = Pcg32::seed_from_u64(u64::from(seed));
    let mut level = Level {
        heat: board.ledger.mean() / 2,
        window: WHOLE,
        exact: false,
    };
    for _ in 0..LEVELS {
        if level.heat < FROZEN {
            break;
        }
        let made = run_level(&mut board, cells, level, &mut generator)?;
        level = next(level, made);
    }
    let last = Level {
        heat: 0,
        window: level.window,
        exact: true,
    };
    let _ = run_level(&mut board, cells, last, &mut generator)?;
    copied(alloc, &board.rows)
}
