// The first bit of a column that one before it lists as well, by the ends of ranges.
ghost use Rattle.std.specs.Prelude.{◌≡◌, ◌||◌, ◌&&◌, ℕ, Bool, true, Some, nat_le};
ghost use Rattle.std.specs.List.{list_any};
ghost use Rattle.vlsi_base.specs.Range.{least, greatest};
ghost use Rattle.pat_io.specs.Known.{lists, first_again};
ghost use Rattle.pat_io.specs.Apart.{share_bit};
ghost use Rattle.pat_io.specs.FirstBit.{is_left_of, FirstOf};

use pat_text::ParsedColumn;
use vlsi_base::Range;

/// Whether a bit of a range stands left of another.
fn is_left_of(range: Range, bit: u32, other: u32) -> bool
    ensures { result ≡ is_left_of range bit other }
{
    if range.left <= range.right {
        bit < other
    } else {
        other < bit
    }
}

/// The left one of two bits of a range, or the one that there is.
fn leftmost(range: Range, bit: Option<u32>, other: Option<u32>) -> Option<u32>
    ensures { (p q : ℕ → Bool) → FirstOf p range bit → FirstOf q range other → FirstOf (λ k. p k || q k) range result }
{
    match (bit, other) {
        (Some(a), Some(b)) if is_left_of(range, b, a) => Some(b),
        (Some(a), _) => Some(a),
        (None, other) => other,
    }
}

/// The first bit of a range, from the left, that another range has as well.
fn first_in_both(range: Range, other: Range) -> Option<u32>
    ensures { FirstOf (λ k. nat_le (least other) k && nat_le k (greatest other)) range result }
{
    let low = range.least().max(other.least());
    let high = range.greatest().min(other.greatest());
    if low > high {
        return None;
    }
    if range.left <= range.right {
        Some(low)
    } else {
        Some(high)
    }
}

/// The first bit of a range, from the left, that a column of the same name lists.
fn first_in(name: &[u8], range: Range, column: &ParsedColumn) -> Option<u32>
    ensures { FirstOf (λ k. lists (record { text = name.now; bit = Some k }) column.now) range result }
{
    let Some(other) = column.range else {
        return None;
    };
    if column.name.as_bytes() == name {
        return first_in_both(range, other);
    }
    None
}

/// The first bit of a range, from the left, that some column of the same name lists.
fn first_in_any(name: &[u8], range: Range, columns: &[ParsedColumn]) -> Option<u32>
    ensures { FirstOf (λ k. list_any (lists (record { text = name.now; bit = Some k })) columns.now) range result }
{
    let mut first = None;
    for column in columns {
        first = leftmost(range, first, first_in(name, range, column));
    }
    first
}

/// The first bit of a column that one before it lists as well, where there is one; a scalar's has no number. Its time goes by
/// the number of columns, however many bits they list.
#[tactic(auto, using(crate::proofs::Firsts::named_scalar))]
pub fn first_again(before: &[ParsedColumn], column: &ParsedColumn) -> Option<u32>
    requires again { list_any (share_bit column.now) before.now ≡ true }
    ensures { first_again before.now column.now ≡ Some (record { text = column.now.name; bit = result }) }
{
    match column.range {
        Some(range) => first_in_any(column.name.as_bytes(), range, before),
        None => None,
    }
}
