// Functions of six variables in one word: bit n is the value in row n, where variable k has bit k of n.

/// How many variables there are.
pub(crate) const VARIABLES: usize = 6;

/// The function that is a variable; the last one for each greater number.
pub(crate) fn variable_word(variable: usize) -> u64 {
    match variable {
        0 => 0xAAAA_AAAA_AAAA_AAAA,
        1 => 0xCCCC_CCCC_CCCC_CCCC,
        2 => 0xF0F0_F0F0_F0F0_F0F0,
        3 => 0xFF00_FF00_FF00_FF00,
        4 => 0xFFFF_0000_FFFF_0000,
        _ => 0xFFFF_FFFF_0000_0000,
    }
}

// How far two rows lie apart that differ in the variable.
fn distance(variable: usize) -> u32 {
    match variable {
        0 => 1,
        1 => 2,
        2 => 4,
        3 => 8,
        4 => 16,
        _ => 32,
    }
}

/// The function with a value put in for a variable.
pub(crate) fn cofactor(word: u64, variable: usize, value: bool) -> u64 {
    let ones = variable_word(variable);
    if value {
        let kept = word & ones;
        kept | kept.wrapping_shr(distance(variable))
    } else {
        let kept = word & !ones;
        kept | kept.wrapping_shl(distance(variable))
    }
}

/// Whether the function depends on a variable.
pub(crate) fn depends(word: u64, variable: usize) -> bool {
    cofactor(word, variable, false) != cofactor(word, variable, true)
}

/// How many variables the function depends on.
pub(crate) fn support(word: u64) -> u32 {
    let mut count = 0u32;
    for variable in 0..VARIABLES {
        if depends(word, variable) {
            count = count.saturating_add(1);
        }
    }
    count
}

/// One function where a variable is 1, and another where it is 0.
pub(crate) fn chosen(variable: usize, high: u64, low: u64) -> u64 {
    let ones = variable_word(variable);
    (ones & high) | (!ones & low)
}

/// The function with two variables exchanged, of which the first is the lower one.
pub(crate) fn exchanged(word: u64, first: usize, second: usize) -> u64 {
    let up = variable_word(first) & !variable_word(second);
    let down = variable_word(second) & !variable_word(first);
    let by = distance(second).saturating_sub(distance(first));
    (word & !(up | down)) | (word & up).wrapping_shl(by) | (word & down).wrapping_shr(by)
}

/// The inverse of a function where the flag is set.
pub(crate) fn inverse_if(word: u64, is_inverse: bool) -> u64 {
    if is_inverse { !word } else { word }
}
