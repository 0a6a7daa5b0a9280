// What is kept beside rows of cells, for rows that are given.
ghost use Rattle.std.specs.Prelude.{◌≡◌, ◌++◌, ◌∷◌, [], ◌+◌, ◌<◌, ◌≤◌, ◌^◌, ℕ, true, map, length, slice_index, slice_set, IfOk, OnOk};
ghost use Rattle.std.specs.List.{All};
ghost use Rattle.row_meaning.specs.Rows.{x_in, x_of, row_at, row_width, stands_in};
ghost use Rattle.row_meaning.specs.Length.{block_of};
ghost use Rattle.row_descent.specs.Spans.{limit, AreNear, AreSpansNear, span_of, total_of};
ghost use Rattle.row_descent.specs.Tables.{rows_of, nets_in, IsBlock, AreRowsOf, AreNarrow, AreStarts, AreNetsOf, Lists, AreListed, IsTableOf};

use crate::span::{Span, extent, span_of};
use crate::table::Table;
use row_meaning::{Cells, Pin};
use std::alloc::{AllocError, Global};

/// Puts down where the cells of a row begin.
fn begin_row(starts: &mut [u64], row: &[u32], widths: &[u64], left: u64)
    requires cells { All (λ c. c < length starts.old) row.now }
    requires widths { length starts.old ≡ length widths.now }
    requires narrow { left + row_width widths.now row.now ≤ limit }
    ensures { (c : ℕ) → c < length starts.old
        → slice_index starts.new c ≡ x_in widths.now left row.now c (slice_index starts.old c) }
{
    let mut x = left;
    for cell in row {
        let cell = *cell as usize;
        starts[cell] = x;
        x += widths[cell];
    }
}

/// Puts down where the cells of rows begin.
fn begin_rows(starts: &mut [u64], rows: &[Vec<u32>], widths: &[u64], left: u64)
    requires cells { All (λ row. All (λ c. c < length starts.old) row.items) rows.now }
    requires widths { length starts.old ≡ length widths.now }
    requires narrow { All (λ row. left + row_width widths.now row.items ≤ limit) rows.now }
    ensures { (c : ℕ) → c < length starts.old
        → slice_index starts.new c ≡ x_of widths.now left (rows_of rows.now) c (slice_index starts.old c) }
{
    for row in rows {
        begin_row(starts, row, widths, left);
    }
}

/// Where the cells of rows begin.
fn starts_of(alloc: Global, rows: &[Vec<u32>], cells: &Cells) -> Result<Vec<u64>, AllocError>
    requires rows { AreRowsOf (block_of cells.now) (rows_of rows.now) }
    requires narrow { AreNarrow (block_of cells.now) (rows_of rows.now) }
    ensures { IfOk result (λ starts. AreStarts (block_of cells.now) (rows_of rows.now) starts.items) }
{
    let mut starts = vec![in alloc; 0; cells.widths.len()]?;
    begin_rows(&mut starts, rows, &cells.widths, cells.left);
    Ok(starts)
}

/// Puts a net into the list of a cell.
fn list_net(lists: &mut [Vec<u32>], cell: usize, net: u32) -> Result<(), AllocError>
    requires { cell < length lists.old }
    ensures length { length lists.new ≡ length lists.old }
    ensures lists { OnOk result (rows_of lists.new ≡ slice_set (rows_of lists.old) cell (row_at (rows_of lists.old) cell ++ net ∷ [])) }
{
    lists[cell].push(net)?;
    Ok(())
}

/// Puts a net into the lists of the cells of its pins.
fn list_pins(lists: &mut [Vec<u32>], pins: &[Pin], net: u32) -> Result<(), AllocError>
    requires { All (λ p. p.cell < length lists.old) pins.now }
    ensures length { length lists.new ≡ length lists.old }
    ensures lists { OnOk result (Lists net pins.now (rows_of lists.old) (rows_of lists.new)) }
{
    for pin in pins {
        list_net(lists, pin.cell as usize, net)?;
    }
    Ok(())
}

/// Puts each net into the lists of the cells of its pins.
fn list_nets(lists: &mut [Vec<u32>], nets: &[Vec<Pin>]) -> Result<(), AllocError>
    requires few { length nets.now < 2 ^ 32 }
    requires pins { All (λ net. All (λ p. p.cell < length lists.old) net.items) nets.now }
    requires none { AreListed (nets_in nets.now) 0 (rows_of lists.old) }
    ensures length { length lists.new ≡ length lists.old }
    ensures lists { OnOk result (AreListed (nets_in nets.now) (length nets.now) (rows_of lists.new)) }
{
    for net in 0..nets.len() {
        list_pins(lists, &nets[net], net as u32)?;
    }
    Ok(())
}

/// Empty lists, so many.
fn no_lists(alloc: Global, many: usize) -> Result<Vec<Vec<u32>>, AllocError>
    ensures length { IfOk result (λ lists. length lists.items ≡ many) }
    ensures empty { IfOk result (λ lists. (c : ℕ) → row_at (rows_of lists.items) c ≡ []) }
{
    let mut lists = Vec::new(alloc);
    for _ in 0..many {
        lists.push(Vec::new(alloc))?;
    }
    Ok(lists)
}

/// For each cell the nets of its pins.
fn nets_of(alloc: Global, cells: &Cells) -> Result<Vec<Vec<u32>>, AllocError>
    requires { IsBlock (block_of cells.now) }
    ensures { IfOk result (λ lists. AreNetsOf (block_of cells.now) (rows_of lists.items)) }
{
    let mut lists = no_lists(alloc, cells.widths.len())?;
    list_nets(&mut lists, &cells.nets)?;
    Ok(lists)
}

/// The span of each net.
fn spans_of(alloc: Global, starts: &[u64], nets: &[Vec<Pin>]) -> Result<Vec<Span>, AllocError>
    requires { All (λ net. AreNear starts.now net.items) nets.now }
    ensures { IfOk result (λ spans. spans.items ≡ map (span_of starts.now) (nets_in nets.now)) }
{
    let mut spans = Vec::with_capacity(alloc, nets.len())?;
    for net in nets {
        spans.push(span_of(starts, net))?;
    }
    Ok(spans)
}

/// The sum of all extents.
fn total_of(spans: &[Span]) -> u128
    requires near { AreSpansNear spans.now }
    requires few { length spans.now < 2 ^ 32 }
    ensures { result ≡ total_of spans.now }
{
    let mut total: u128 = 0;
    for span in spans {
        total += u128::from(extent(*span));
    }
    total
}

impl Table {
    /// What is kept beside these rows. Takes memory for each cell and each pin.
    pub(crate) fn begin(
        alloc: Global,
        rows: &[Vec<u32>],
        cells: &Cells,
    ) -> Result<Table, AllocError>
        requires block { IsBlock (block_of cells.now) }
        requires rows { AreRowsOf (block_of cells.now) (rows_of rows.now) }
        requires narrow { AreNarrow (block_of cells.now) (rows_of rows.now) }
        ensures { IfOk result (λ table. IsTableOf (block_of cells.now) (rows_of rows.now) table) }
    {
        let starts = starts_of(alloc, rows, cells)?;
        let nets_of = nets_of(alloc, cells)?;
        let spans = spans_of(alloc, &starts, &cells.nets)?;
        let total = total_of(&spans);
        Ok(Table {
            starts,
            spans,
            total,
            nets_of,
        })
    }
}
