// Numbers of a line.
ghost use Rattle.std.specs.Prelude.{◌≡◌, ◌-◌, ◌^◌, ◌<◌, ◌≤◌, ◌==◌, min, false, true, length, nat_lt, pos, int_lt};
ghost use Rattle.std.specs.Ordering.{nat_cmp, int_cmp};
ghost use Rattle.std.specs.List.{list_all, prefix_len};
ghost use Rattle.std.specs.Char.{is_ascii_digit};
ghost use Rattle.vlsi_base.specs.Number.{value_of};
ghost use Rattle.ap_io.specs.Fields.{is_digits, has_minus, digits_of, is_number, is_width, is_index, size_of, number_of, reach, coordinate_of, signed, significant};

use crate::{MOST_COORDINATE, Scale};
use std::cmp::Ordering;

/// Whether each byte of a text is a digit.
fn all_digits(text: &[u8]) -> bool
    ensures { result ≡ list_all is_ascii_digit text.now }
{
    text.iter().all(|byte| byte.is_ascii_digit())
}

/// Whether a text is digits, at least one.
pub fn is_digits(text: &[u8]) -> bool
    ensures { result ≡ is_digits text.now }
{
    !text.is_empty() && all_digits(text)
}

/// The number that digits spell, or the greatest of the type where that is less.
pub fn saturating_value(digits: &[u8]) -> u64
    ensures { result ≡ min (value_of digits.now) (2 ^ 64 - 1) }
{
    let mut value = 0u64;
    for digit in digits {
        value = value
            .saturating_mul(10)
            .saturating_add(u64::from(digit.saturating_sub(b'0')));
    }
    value
}

/// Whether a minus stands in front.
fn has_minus(text: &[u8]) -> bool
    ensures { result ≡ has_minus text.now }
{
    text.starts_with(b"-")
}

/// What stands behind the minus, if there is one.
fn digits_of(text: &[u8]) -> &[u8]
    ensures { result.now ≡ digits_of text.now }
{
    if has_minus(text) { &text[1..] } else { text }
}

/// Whether a text is a decimal number: digits, perhaps with a minus in front.
#[tactic(auto, unfolding(crate::specs::Fields::is_number))]
pub fn is_number(text: &[u8]) -> bool
    ensures { result ≡ is_number text.now }
{
    is_digits(digits_of(text))
}

/// The absolute value of a number, or the greatest of the type where that is less.
fn size_of(text: &[u8]) -> u64
    ensures { result ≡ min (size_of text.now) (2 ^ 64 - 1) }
{
    saturating_value(digits_of(text))
}

/// Whether a text is a number of at least 1.
pub fn is_width(text: &[u8]) -> bool
    ensures { result ≡ is_width text.now }
{
    is_number(text) && (!has_minus(text) && 0 < size_of(text))
}

/// Whether a text is a number below 2^63 in absolute value.
pub fn is_index(text: &[u8]) -> bool
    ensures { result ≡ is_index text.now }
{
    is_number(text) && size_of(text) < 1 << 63
}

/// A number below 2^63 in absolute value; of others, the one closest to it.
pub fn index(text: &[u8]) -> i64
    ensures { nat_lt (size_of text.now) (2 ^ 63) ≡ true → result ≡ number_of text.now }
{
    signed(has_minus(text), size_of(text))
}

/// The number of this absolute value, or the closest to it.
fn signed(minus: bool, size: u64) -> i64
    ensures { size < 2 ^ 63 → result ≡ signed minus size }
{
    let size = i64::try_from(size).unwrap_or(i64::MAX);
    if minus { -size } else { size }
}

/// The absolute value of a coordinate or width at scale 100, or the greatest of the type where that is less.
pub fn reach(scale: Scale, text: &[u8]) -> u64
    ensures { result ≡ min (reach scale text.now) (2 ^ 64 - 1) }
{
    size_of(text).saturating_mul(scale.factor())
}

/// A coordinate or width at scale 100, where it is at most `MOST_COORDINATE` in absolute value.
pub fn coordinate(scale: Scale, text: &[u8]) -> i64
    ensures { nat_lt MOST_COORDINATE (reach scale text.now) ≡ false → result ≡ coordinate_of scale text.now }
{
    signed(has_minus(text), reach(scale, text))
}

/// How many zeros stand in front.
fn zeros(digits: &[u8]) -> usize
    ensures count { result ≡ prefix_len (λ b. b == 48) digits.now }
    ensures within { result ≤ length digits.now }
{
    digits.iter().take_while(|byte| **byte == b'0').count()
}

/// Digits without the zeros in front.
fn significant(digits: &[u8]) -> &[u8]
    ensures { result.now ≡ significant digits.now }
{
    &digits[zeros(digits)..]
}

/// The order of the numbers that two texts of digits spell, of any length.
fn compare_digits(a: &[u8], b: &[u8]) -> Ordering
    requires first { is_digits a.now ≡ true }
    requires second { is_digits b.now ≡ true }
    ensures { result ≡ nat_cmp (value_of a.now) (value_of b.now) }
{
    let a = significant(a);
    let b = significant(b);
    a.len().cmp(&b.len()).then(a.cmp(b))
}

/// Whether a number is below zero.
fn is_negative(text: &[u8]) -> bool
    requires { is_number text.now ≡ true }
    ensures { result ≡ int_lt (number_of text.now) (pos 0) }
{
    has_minus(text) && !significant(digits_of(text)).is_empty()
}

/// The order of two numbers of any length.
#[tactic(auto, unfolding(crate::specs::Fields::is_number))]
pub fn compare_numbers(a: &[u8], b: &[u8]) -> Ordering
    requires first { is_number a.now ≡ true }
    requires second { is_number b.now ≡ true }
    ensures { result ≡ int_cmp (number_of a.now) (number_of b.now) }
{
    match (is_negative(a), is_negative(b)) {
        (false, false) => compare_digits(digits_of(a), digits_of(b)),
        (true, true) => compare_digits(digits_of(b), digits_of(a)),
        (true, false) => Ordering::Less,
        (false, true) => Ordering::Greater,
    }
}
