// Bytes as they are shown on one line.
use std::alloc::AllocError;
use vlsi_base::Text;

const BACKSLASH: u8 = b'\\';

const DIGITS: [u8; 16] = *b"0123456789abcdef";

fn is_shown(byte: u8) -> bool {
    (32..127).contains(&byte) && byte != BACKSLASH
}

/// Puts bytes behind a line: each that isn't printed in ASCII, and the backslash, as a backslash and two digits in base 16.
pub fn push_shown(line: &mut Text, bytes: &[u8]) -> Result<(), AllocError> {
    for byte in bytes {
        if is_shown(*byte) {
            line.append(&[*byte])?;
        } else {
            let high = DIGITS[(*byte / 16) as usize];
            let low = DIGITS[(*byte % 16) as usize];
            line.append(&[BACKSLASH, high, low])?;
        }
    }
    Ok(())
}
