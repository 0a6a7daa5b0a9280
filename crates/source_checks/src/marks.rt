// Sets of bits, each told by the place of its name and a number.
ghost use Rattle.std.specs.Prelude.{◌≡◌, ◌||◌, ℕ, OnOk};
ghost use Rattle.source_checks.specs.Marks.{has, is_key};

use std::alloc::AllocError;
use std::collections::BTreeSet;

/// Bits: the place of a name among the declared ones, and 0 for a name without a bit, or the bit's number and 1.
pub type Marks = BTreeSet<(usize, u64)>;

/// Whether the bit with this code is marked, of the name at this place.
pub fn is_marked(marks: &Marks, place: usize, code: u64) -> bool
    ensures { result ≡ has marks.now (place, code) }
{
    marks.contains(&(place, code))
}

/// Marks the bit with this code, of the name at this place.
pub fn mark(marks: &mut Marks, place: usize, code: u64) -> Result<(), AllocError>
    ensures { OnOk result ((q : ℕ × ℕ) → has marks.new q ≡ (is_key (place, code) q || has marks.old q)) }
{
    marks.insert((place, code))?;
    Ok(())
}
