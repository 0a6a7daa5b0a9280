// The fields of a line, and the numbers that they spell.
ghost use Rattle.std.specs.Prelude.{◌≡◌, ◌==◌, ◌+◌, ◌≤◌, ℕ, ℤ, IfSome, IsNone, IsTrue, drop, length};
ghost use Rattle.std.specs.List.{count_by, prefix_len};
ghost use Rattle.real_table.specs.Fields.{IsNumberIn, IsSignedIn, at, digits_of, fields_of, has_minus as has_minus_text, is_in_field};

use vlsi_base::read_u64;

/// How many blanks there are.
fn blanks(text: &[u8]) -> usize
    ensures count { result ≡ count_by (λ b. b == 32) text.now }
    ensures within { result ≤ length text.now }
{
    text.iter().filter(|byte| **byte == b' ').count()
}

/// How many bytes stand before the first blank.
fn field_length(text: &[u8]) -> usize
    ensures count { result ≡ prefix_len is_in_field text.now }
    ensures within { result ≤ length text.now }
{
    text.iter().take_while(|byte| **byte != b' ').count()
}

/// What stands behind the first blank; nothing where there is none.
fn behind_blank(text: &[u8]) -> &[u8]
    ensures { result.now ≡ drop (prefix_len is_in_field text.now + 1) text.now }
{
    let length = field_length(text);
    if length < text.len() {
        &text[length + 1..]
    } else {
        &[]
    }
}

/// How many fields a line has: one more than blanks.
pub fn field_count(line: &[u8]) -> usize
    ensures { result ≡ length (fields_of line.now) }
{
    1 + blanks(line)
}

/// The field of this number, counted from 0; no bytes where there is none.
pub fn field(line: &[u8], number: usize) -> &[u8]
    ensures { result.now ≡ at (fields_of line.now) number }
{
    let mut rest = line;
    for _ in 0..number {
        rest = behind_blank(rest);
    }
    &rest[..field_length(rest)]
}

/// The number within these bounds that a text spells, if it does.
pub fn number_in(least: u32, most: u32, text: &[u8]) -> Option<u32>
    ensures some { IfSome result (λ n. IsNumberIn least most text.now n) }
    ensures none { IsNone result → (n : ℕ) → IsNumberIn least most text.now n → ⊥ }
{
    let Some(number) = read_u64(text) else {
        return None;
    };
    if number < u64::from(least) || u64::from(most) < number {
        return None;
    }
    Some(number as u32)
}

/// The digits of a number, behind its minus where it has one.
fn digits(text: &[u8]) -> &[u8]
    ensures { result.now ≡ digits_of text.now }
{
    if has_minus(text) { &text[1..] } else { text }
}

fn has_minus(text: &[u8]) -> bool
    ensures value { result ≡ has_minus_text text.now }
    ensures some { IsTrue result → 1 ≤ length text.now }
{
    text.starts_with(b"-")
}

/// The number of at most this size that a text spells, if it does.
pub fn signed_in(most: u32, text: &[u8]) -> Option<i64>
    ensures some { IfSome result (λ n. IsSignedIn most text.now n) }
    ensures none { IsNone result → (n : ℤ) → IsSignedIn most text.now n → ⊥ }
{
    let Some(size) = number_in(0, most, digits(text)) else {
        return None;
    };
    Some(if has_minus(text) {
        -i64::from(size)
    } else {
        i64::from(size)
    })
}
