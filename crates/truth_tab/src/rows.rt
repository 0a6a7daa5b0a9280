// The rows of tables.
ghost use Rattle.std.specs.Prelude.{◌≡◌, ℕ, ◌<◌, ◌≤◌, ◌^◌, All, length, not};
ghost use Rattle.truth_tab.specs.Table.{row_bit, with_bit, gathered};

/// The value in a row.
pub(crate) fn at(word: u64, row: u32) -> bool
    requires { row < 64 }
    ensures { result ≡ row_bit word row }
{
    (word >> row) & 1 == 1
}

/// A variable's value in a row.
pub(crate) fn variable_at(row: u32, variable: u8) -> bool
    requires { variable < 32 }
    ensures { result ≡ row_bit row variable }
{
    (row >> variable) & 1 == 1
}

/// The word that has a variable's value in each row.
pub(crate) fn pattern(variable: usize) -> u64
    requires { variable < 6 }
    ensures { (n : ℕ) → n < 64 → row_bit result n ≡ row_bit n variable }
{
    match variable {
        0 => 0xAAAA_AAAA_AAAA_AAAA,
        1 => 0xCCCC_CCCC_CCCC_CCCC,
        2 => 0xF0F0_F0F0_F0F0_F0F0,
        3 => 0xFF00_FF00_FF00_FF00,
        4 => 0xFFFF_0000_FFFF_0000,
        _ => 0xFFFF_FFFF_0000_0000,
    }
}

/// How many rows the tables of so many variables have.
pub(crate) fn row_count(variables: usize) -> u32
    requires { variables ≤ 6 }
    ensures count { result ≡ 2 ^ variables }
    ensures few { result ≤ 64 }
{
    1 << variables
}

/// The word with the other value in each row.
pub(crate) fn inverse(word: u64) -> u64
    ensures { (n : ℕ) → n < 64 → row_bit result n ≡ not (row_bit word n) }
{
    !word
}

/// The row that differs at most in the variable, which has the value.
pub(crate) fn changed(row: u32, variable: u8, value: bool) -> u32
    requires row { row < 64 }
    requires variable { variable < 6 }
    ensures row { result ≡ with_bit row variable value }
    ensures few { result < 64 }
{
    let one: u32 = 1 << variable;
    if value { row | one } else { row & !one }
}

/// The row in which each variable has the value that the variable at its place has in this row.
pub(crate) fn gather(places: &[u8], row: u32) -> u32
    requires few { length places.now ≤ 6 }
    requires places { All (λ p. p < 32) places.now }
    ensures row { result ≡ gathered places.now row }
    ensures few { result < 64 }
{
    let mut gathered: u32 = 0;
    let mut rest = places.len();
    while rest > 0 {
        rest -= 1;
        gathered *= 2;
        if variable_at(row, places[rest]) {
            gathered += 1;
        }
    }
    gathered
}
