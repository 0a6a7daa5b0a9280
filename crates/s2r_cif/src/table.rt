// The numbers that lead from a symbolic layout to a real one.
ghost use Rattle.std.specs.Prelude.{◌≡◌, ◌-◌, ◌≤◌, All, slice_index};
ghost use Rattle.s2r_cif.specs.Real.{AllWithinGap, IsRealTable, grow_of};

/// The most real units that a hundredth of a symbolic unit may be.
pub const MOST_SCALE: u32 = 1_000;

/// The most real units by which an edge may move outward.
pub const MOST_GROW: u32 = 1_000_000;

/// How a symbolic layout becomes a real one.
#[derive(Clone, Copy)]
pub struct RealTable {
    /// How many real units a hundredth of a symbolic unit is: from 1 to `MOST_SCALE`.
    pub scale: u32,
    /// By how many real units each edge of a shape moves outward, for the metals from 1 to 6: each at most `MOST_GROW`.
    pub grow: [u32; 6],
}

/// By how many real units each edge of a shape of this metal moves outward.
pub fn grow_of(table: &RealTable, metal: u8) -> u32
    ensures { result ≡ grow_of table.now metal }
{
    let place = usize::from(metal).saturating_sub(1);
    if place < table.grow.len() {
        table.grow[place]
    } else {
        0
    }
}

/// The largest of these numbers, or 0 where there is none.
fn largest(numbers: &[u32]) -> u32
    requires { All (λ n. n ≤ MOST_GROW) numbers.now }
    ensures each { All (λ n. n ≤ result) numbers.now }
    ensures most { result ≤ MOST_GROW }
{
    let mut most = 0;
    for number in numbers {
        if most < *number {
            most = *number;
        }
    }
    most
}

/// The largest gap at which shapes of some metal grow together, and one more.
pub fn widest_gap(table: &RealTable) -> u32
    requires { IsRealTable table.now }
    ensures { AllWithinGap table.now result }
{
    2 * largest(&table.grow) / table.scale + 1
}
