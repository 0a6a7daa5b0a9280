// What is kept beside rows of cells, so that an exchange costs no more than the nets of two cells.
ghost use Rattle.std.specs.Prelude.{◌≡◌, ◌<◌, ◌≤◌, ◌^◌, ◌+◌, List, ℕ, nat_lt, slice_index, slice_set, if◌then◌else◌, map, length, slice_index_or};
ghost use Rattle.std.specs.List.{All};
ghost use Rattle.row_meaning.specs.Rows.{row_at, cell_at, exchanged};
ghost use Rattle.row_meaning.specs.Length.{block_of, hp};
ghost use Rattle.row_meaning.specs.Tried.{unless_raised};
ghost use Rattle.row_descent.specs.Spans.{limit, AreNear, AreSpansNear, refreshed, refreshed_all, is_refreshed, total_of};
ghost use Rattle.row_descent.specs.Tables.{rows_of, nets_in, IsReady};

use crate::span::{Span, extent, span_of};
use row_meaning::{Cells, Pin};

/// Where each cell begins; the span of each net, and all extents together; and for each cell the nets of its pins.
#[derive(Drop)]
pub(crate) struct Table {
    pub(crate) starts: Vec<u64>,
    pub(crate) spans: Vec<Span>,
    pub(crate) total: u128,
    pub(crate) nets_of: Vec<Vec<u32>>,
}

/// Two cells.
#[derive(Clone, Copy)]
struct Pair {
    first: usize,
    second: usize,
}

/// The place of two neighbours: no pin of theirs lies outside, before and after they are exchanged.
#[derive(Clone, Copy)]
pub(crate) struct Window {
    pub(crate) low: u64,
    pub(crate) high: u64,
}

/// The span of a net anew, after two neighbours within a window were exchanged. Where it goes beyond the window on both sides, it is
/// what it was, and the pins aren't looked at.
fn refreshed(span: Span, window: Window, starts: &[u64], pins: &[Pin]) -> Span
    requires { AreNear starts.now pins.now }
    ensures { result ≡ refreshed starts.now window.low window.high pins.now span }
{
    if span.low < window.low && window.high < span.high {
        span
    } else {
        span_of(starts, pins)
    }
}

/// The span of one net anew, and the sum of all.
fn refresh(
    spans: &mut [Span],
    total: &mut u128,
    window: Window,
    starts: &[u64],
    net: usize,
    pins: &[Pin],
)
    requires net { net < length spans.old }
    requires pins { AreNear starts.now pins.now }
    requires near { AreSpansNear spans.old }
    requires few { length spans.old < 2 ^ 32 }
    requires total { total.old ≡ total_of spans.old }
    ensures spans { is_refreshed starts.now window.low window.high pins.now net spans.old spans.new }
    ensures near { AreSpansNear spans.new }
    ensures total { total.new ≡ total_of spans.new }
{
    let span = spans[net];
    let fresh = refreshed(span, window, starts, pins);
    *total = *total - u128::from(extent(span)) + u128::from(extent(fresh));
    spans[net] = fresh;
}

/// The spans of some nets anew, and the sum of all. Takes time for the pins of those that don't go beyond the window on both sides.
fn refresh_all(
    spans: &mut [Span],
    total: &mut u128,
    window: Window,
    starts: &[u64],
    nets: &[Vec<Pin>],
    list: &[u32],
)
    requires list { All (λ k. k < length nets.now) list.now }
    requires many { length spans.old ≡ length nets.now }
    requires pins { All (λ net. AreNear starts.now net.items) nets.now }
    requires near { AreSpansNear spans.old }
    requires few { length spans.old < 2 ^ 32 }
    requires total { total.old ≡ total_of spans.old }
    ensures spans { spans.new ≡ refreshed_all starts.now window.low window.high (nets_in nets.now) list.now spans.old }
    ensures near { AreSpansNear spans.new }
    ensures total { total.new ≡ total_of spans.new }
{
    for net in list {
        refresh(
            spans,
            total,
            window,
            starts,
            *net as usize,
            &nets[*net as usize],
        );
    }
}

impl Table {
    /// The spans of the nets of a cell anew, and the sum of all.
    fn renew(&mut self, cells: &Cells, window: Window, cell: usize)
        requires cell { cell < length self.old.nets_of.items }
        requires list { All (λ k. k < length cells.now.nets.items) (row_at (rows_of self.old.nets_of.items) cell) }
        requires many { length self.old.spans.items ≡ length cells.now.nets.items }
        requires pins { All (λ net. AreNear self.old.starts.items net.items) cells.now.nets.items }
        requires near { AreSpansNear self.old.spans.items }
        requires few { length self.old.spans.items < 2 ^ 32 }
        requires total { self.old.total ≡ total_of self.old.spans.items }
        ensures spans { self.new.spans.items ≡ refreshed_all self.old.starts.items window.low window.high
            (nets_in cells.now.nets.items) (row_at (rows_of self.old.nets_of.items) cell) self.old.spans.items }
        ensures length { length self.new.spans.items ≡ length self.old.spans.items }
        ensures near { AreSpansNear self.new.spans.items }
        ensures total { self.new.total ≡ total_of self.new.spans.items }
        ensures starts { self.new.starts.items ≡ self.old.starts.items }
        ensures nets { self.new.nets_of.items ≡ self.old.nets_of.items }
    {
        refresh_all(
            &mut self.spans,
            &mut self.total,
            window,
            &self.starts,
            &cells.nets,
            &self.nets_of[cell],
        );
    }
}

/// How many cells a row has.
pub(crate) fn places(rows: &[Vec<u32>], row: usize) -> usize
    requires { row < length rows.now }
    ensures { result ≡ length (row_at (rows_of rows.now) row) }
{
    rows[row].len()
}

/// The cells at a place of a row and one further.
fn neighbours(rows: &[Vec<u32>], row: usize, place: usize) -> Pair
    requires row { row < length rows.now }
    requires place { place + 1 < length (row_at (rows_of rows.now) row) }
    ensures first { result.first ≡ cell_at (rows_of rows.now) row place }
    ensures second { result.second ≡ cell_at (rows_of rows.now) row (place + 1) }
{
    let cells = &rows[row];
    Pair {
        first: cells[place] as usize,
        second: cells[place + 1] as usize,
    }
}

/// Exchanges the cell at a place of a row and the next one.
fn exchange_in(rows: &mut [Vec<u32>], row: usize, place: usize)
    requires row { row < length rows.old }
    requires place { place + 1 < length (row_at (rows_of rows.old) row) }
    ensures { rows_of rows.new ≡ exchanged (rows_of rows.old) row place }
{
    rows[row].swap(place, place + 1);
}

/// Where two neighbours begin after they are exchanged, and the place of both.
fn move_starts(starts: &mut [u64], widths: &[u64], pair: Pair) -> Window
    requires first { pair.first < length starts.old }
    requires second { pair.second < length starts.old }
    requires widths { length starts.old ≡ length widths.now }
    requires near { slice_index starts.old pair.first + slice_index widths.now pair.second + slice_index widths.now pair.first ≤ limit }
    ensures starts { starts.new ≡ slice_set (slice_set starts.old pair.second (slice_index starts.old pair.first))
        pair.first (slice_index starts.old pair.first + slice_index widths.now pair.second) }
    ensures low { result.low ≡ slice_index starts.old pair.first }
    ensures high { result.high
        ≡ slice_index starts.old pair.first + slice_index widths.now pair.second + slice_index widths.now pair.first }
{
    let low = starts[pair.first];
    let between = low + widths[pair.second];
    starts[pair.second] = low;
    starts[pair.first] = between;
    Window {
        low,
        high: between + widths[pair.first],
    }
}

impl Table {
    /// Follows the exchange of the cell at a place of a row and the next one.
    fn follow(&mut self, rows: &[Vec<u32>], cells: &Cells, row: usize, place: usize)
        requires row { row < length rows.now }
        requires place { place + 1 < length (row_at (rows_of rows.now) row) }
        requires ready { IsReady (block_of cells.now) (rows_of rows.now) self.old }
        ensures { IsReady (block_of cells.now) (exchanged (rows_of rows.now) row place) self.new }
    {
        let pair = neighbours(rows, row, place);
        let window = move_starts(&mut self.starts, &cells.widths, pair);
        self.renew(cells, window, pair.first);
        self.renew(cells, window, pair.second);
    }
}

/// Exchanges the cell at a place of a row and the next one. Takes time for the nets of the two, and for the pins of those nets that
/// don't go beyond the two on both sides.
fn exchange(rows: &mut [Vec<u32>], cells: &Cells, table: &mut Table, row: usize, place: usize)
    requires row { row < length rows.old }
    requires place { place + 1 < length (row_at (rows_of rows.old) row) }
    requires ready { IsReady (block_of cells.now) (rows_of rows.old) table.old }
    ensures rows { rows_of rows.new ≡ exchanged (rows_of rows.old) row place }
    ensures ready { IsReady (block_of cells.now) (rows_of rows.new) table.new }
{
    table.follow(rows, cells, row, place);
    exchange_in(rows, row, place);
}

/// Exchanges the cell at a place of a row and the next one where that lowers the length, and says whether it did.
pub(crate) fn lowers(
    rows: &mut [Vec<u32>],
    cells: &Cells,
    table: &mut Table,
    row: usize,
    place: usize,
) -> bool
    requires row { row < length rows.old }
    requires place { place + 1 < length (row_at (rows_of rows.old) row) }
    requires ready { IsReady (block_of cells.now) (rows_of rows.old) table.old }
    ensures value { result ≡ nat_lt (hp (block_of cells.now) (exchanged (rows_of rows.old) row place)) (hp (block_of cells.now) (rows_of rows.old)) }
    ensures rows { rows_of rows.new ≡ (if result then exchanged (rows_of rows.old) row place else rows_of rows.old) }
    ensures ready { IsReady (block_of cells.now) (rows_of rows.new) table.new }
{
    let before = table.total;
    exchange(rows, cells, table, row, place);
    if table.total < before {
        return true;
    }
    exchange(rows, cells, table, row, place);
    false
}

/// Exchanges the cell at a place of a row and the next one, unless that raises the length.
pub(crate) fn try_exchange(
    rows: &mut [Vec<u32>],
    cells: &Cells,
    table: &mut Table,
    row: usize,
    place: usize,
)
    requires row { row < length rows.old }
    requires place { place + 1 < length (row_at (rows_of rows.old) row) }
    requires ready { IsReady (block_of cells.now) (rows_of rows.old) table.old }
    ensures rows { rows_of rows.new ≡ unless_raised (hp (block_of cells.now)) (rows_of rows.old) (exchanged (rows_of rows.old) row place) }
    ensures ready { IsReady (block_of cells.now) (rows_of rows.new) table.new }
{
    let before = table.total;
    exchange(rows, cells, table, row, place);
    if table.total > before {
        exchange(rows, cells, table, row, place);
    }
}
