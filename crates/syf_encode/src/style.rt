// How states get their codes.

/// How states get their codes.
#[derive(Clone, Copy, PartialEq, Eq)]
pub enum Style {
    /// One bit for each state.
    OneHot,
    /// The numbers from 0 on, shuffled by the words of PCG32 that this number seeds.
    Random(u64),
    /// Numbers that bring states near each other of which one leads to the other.
    Adjacent,
}
