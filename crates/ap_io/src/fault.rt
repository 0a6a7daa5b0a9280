/// Why a line can't be read.
#[derive(Clone, Copy, PartialEq, Eq)]
pub enum LineFault {
    /// It meets no form, or lacks fields.
    BadLine,
    /// Its layer isn't listed.
    BadLayer,
    /// Its transform isn't listed.
    BadTransform,
    /// An identifier has more than 64 bytes: how many.
    LongName(u64),
    /// A coordinate or a width is over the greatest: which it is at scale 100, or the greatest number of 64 bits.
    FarCoordinate(u64),
}
