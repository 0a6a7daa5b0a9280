// Reading and writing at places that may lie beyond the end, and remainders that may have no divisor.

/// The number at a place, and 0 beyond the end.
pub(crate) fn at(values: &[u64], k: usize) -> u64 {
    match values.get(k) {
        Some(value) => *value,
        None => 0,
    }
}

/// The cell at a place of a row, and 0 beyond the end.
pub(crate) fn cell_at(row: &[u32], k: usize) -> usize {
    match row.get(k) {
        Some(cell) => *cell as usize,
        None => 0,
    }
}

/// Puts a number at a place, if there is such a place.
pub(crate) fn put(values: &mut [u64], k: usize, value: u64) {
    if k < values.len() {
        values[k] = value;
    }
}

/// Puts a cell at a place of a row, if there is such a place.
pub(crate) fn put_cell(row: &mut [u32], k: usize, cell: u32) {
    if k < row.len() {
        row[k] = cell;
    }
}

/// A word reduced to a number below `many`, and 0 where that is 0.
pub(crate) fn below(word: u32, many: usize) -> usize {
    if many == 0 { 0 } else { word as usize % many }
}

/// A word reduced to a number from the lower one to the higher one.
pub(crate) fn between(word: u32, low: usize, high: usize) -> usize {
    let many = high.saturating_sub(low).saturating_add(1);
    low.saturating_add(below(word, many))
}

/// A quotient, and 0 where there is no divisor.
pub(crate) fn quotient(value: u64, divisor: u64) -> u64 {
    if divisor == 0 { 0 } else { value / divisor }
}

/// A number of a cell or a net, which is below 2^32.
pub(crate) fn number(value: usize) -> u32 {
    if value < u32::MAX as usize {
        value as u32
    } else {
        u32::MAX
    }
}
