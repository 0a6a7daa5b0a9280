// Breaches, and the rules that they break.
ghost use Rattle.std.specs.Prelude.{◌≡◌};
ghost use Rattle.sym_geom.specs.declared.grid.TheConstants.{LEAST_WIDTH as STANDARD_WIDTH, LEAST_GAP as STANDARD_GAP};

use sym_geom::{LEAST_GAP, LEAST_WIDTH, Rect};
use vlsi_base::Listed;

/// A shape that is too narrow, or two that are too near, with their metal.
#[derive(Drop)]
pub enum Breach {
    /// A drawn rectangle that is narrower than the least width.
    Width { metal: u8, rect: Rect },
    /// Two rectangles whose gap is less than the least.
    Gap { metal: u8, a: Rect, b: Rect },
}

/// The breaches of a layout in their order: widths in the order of shapes, and then gaps in that of the first and then of the
/// second shape.
pub type Breaches = Listed<Breach>;

/// The least width of a drawn shape, and the least gap of two shapes, at scale 100.
#[derive(Clone, Copy)]
pub struct Rules {
    pub width: u32,
    pub gap: u32,
}

impl Rules {
    /// The rules of the symbolic layout: 200 and 200. Takes no memory.
    pub fn standard() -> Self
        ensures width { result.width ≡ STANDARD_WIDTH }
        ensures gap { result.gap ≡ STANDARD_GAP }
    {
        Rules {
            width: u32::from(LEAST_WIDTH),
            gap: u32::from(LEAST_GAP),
        }
    }
}
