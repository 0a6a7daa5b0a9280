// How often nodes are read.
ghost use Rattle.std.specs.Prelude.{◌≡◌, ℕ, ◌+◌, ◌<◌, ◌≤◌, ◌^◌, length, slice_index};
ghost use Rattle.cell_match.specs.Places.{times};

/// Counts off the leaves.
pub(crate) fn count_off(counts: &mut [u32], leaves: &[u32])
    requires inside { (x : ℕ) → 0 < times x leaves.now → x < length counts.old }
    requires enough { (x : ℕ) → times x leaves.now ≤ slice_index counts.old x }
    ensures { (x : ℕ) → slice_index counts.new x + times x leaves.now ≡ slice_index counts.old x }
{
    for leaf in leaves {
        counts[*leaf as usize] -= 1;
    }
}

/// Counts the leaves.
pub fn count_on(counts: &mut [u32], leaves: &[u32])
    requires inside { (x : ℕ) → 0 < times x leaves.now → x < length counts.old }
    requires room { (x : ℕ) → slice_index counts.old x + times x leaves.now < 2 ^ 32 }
    ensures { (x : ℕ) → slice_index counts.new x ≡ slice_index counts.old x + times x leaves.now }
{
    for leaf in leaves {
        counts[*leaf as usize] += 1;
    }
}
