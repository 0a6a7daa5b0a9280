// Decimal numbers.
ghost use Rattle.std.specs.Prelude.{◌≡◌, ◌≤◌, ◌^◌, ◌<◌, ◌++◌, IsTrue, ◌↔◌, IfSome, IsNone, OnOk, OnErr};
ghost use Rattle.std.specs.Fmt.{decimal};
ghost use Rattle.vlsi_base.specs.Number.{IsNumeral, is_digit as is_digit_byte, value_of};

use crate::Text;
use std::alloc::{AllocError, Global};

/// The most digits that a number of 64 bits is read from, leading zeros among them.
const MOST_DIGITS: usize = 20;

/// Whether the text is 1 to 20 decimal digits.
fn is_numeral(text: &[u8]) -> bool
    ensures { IsTrue result ↔ IsNumeral text.now }
{
    !text.is_empty() && text.len() <= MOST_DIGITS && text.iter().all(|c| is_digit(*c))
}

fn is_digit(c: u8) -> bool
    ensures { result ≡ is_digit_byte c }
{
    48 <= c && c <= 57
}

/// The number that the digits spell, unless it doesn't fit the type.
fn spelled(text: &[u8]) -> Option<u64>
    ensures value { IfSome result (λ n. n ≡ value_of text.now) }
    ensures over { IsNone result → 2 ^ 64 ≤ value_of text.now }
{
    let mut value = 0u64;
    for digit in text {
        let tenfold = value.checked_mul(10)?;
        value = tenfold.checked_add(u64::from(digit.saturating_sub(b'0')))?;
    }
    Some(value)
}

/// The number that 1 to 20 decimal digits spell. `None` exactly where the text isn't 1 to 20 digits, or where
/// the number doesn't fit the type. Takes no memory.
pub fn read_u64(text: &[u8]) -> Option<u64>
    ensures read { IfSome result (λ n. IsNumeral text.now × (n ≡ value_of text.now)) }
    ensures refused { IsNone result → IsNumeral text.now → 2 ^ 64 ≤ value_of text.now }
{
    if is_numeral(text) {
        spelled(text)
    } else {
        None
    }
}

/// Puts the decimal digits of `n`, without leading zeros, behind a text. Takes memory for what is put; without it all stays
/// as it was.
pub fn push_u64(alloc: Global, to: &mut Text, n: u64) -> Result<(), AllocError>
    ensures ok { OnOk result (to.new ≡ to.old ++ decimal n) }
    ensures err { OnErr result (to.new ≡ to.old) }
{
    let digits = n.to_string(alloc)?;
    to.append(digits.as_bytes())
}
