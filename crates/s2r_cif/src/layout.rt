// Real layouts.

use sym_geom::Rect;
use vlsi_base::Listed;

/// A box of a real layout: of a metal, or of a cut between two.
#[derive(Clone, Copy)]
pub struct RealBox {
    /// The metal, from 1 to 6; of a cut the lower of the two metals that it joins.
    pub level: u8,
    /// Where it lies, in halves of a real unit.
    pub rect: Rect,
}

/// A real layout.
#[derive(Drop)]
pub struct RealLayout {
    /// The boxes of metal, in the order of the shapes.
    pub boxes: Listed<RealBox>,
    /// The cuts, in the order of the vias.
    pub cuts: Listed<RealBox>,
}
