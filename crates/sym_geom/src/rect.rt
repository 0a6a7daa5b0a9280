ghost use Rattle.std.specs.Prelude.{◌↔◌, IsTrue};
ghost use Rattle.sym_geom.specs.Rect.{Meet};

/// A closed rectangle by its edges, at scale 100: `x1 <= x2` and `y1 <= y2`.
#[derive(Clone, Copy, PartialEq, Eq)]
pub struct Rect {
    pub x1: i64,
    pub y1: i64,
    pub x2: i64,
    pub y2: i64,
}

/// How an instance is turned before it is placed.
#[derive(Clone, Copy, PartialEq, Eq)]
pub enum Transform {
    /// NOSYM: as it is.
    NoSym,
    /// SYM_X: x becomes the width less x.
    SymX,
    /// SYM_Y: y becomes the height less y.
    SymY,
    /// SYMXY: both.
    SymXY,
}

/// Whether two closed rectangles meet; a common edge or corner is enough.
pub fn touches(a: Rect, b: Rect) -> bool
    ensures { IsTrue result ↔ Meet a b }
{
    if b.x2 < a.x1 {
        return false;
    }
    if a.x2 < b.x1 {
        return false;
    }
    if b.y2 < a.y1 {
        return false;
    }
    if a.y2 < b.y1 {
        return false;
    }
    true
}
