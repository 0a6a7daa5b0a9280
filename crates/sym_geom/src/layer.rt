ghost use Rattle.std.specs.Prelude.{◌≡◌};
ghost use Rattle.sym_geom.specs.Metal.{metal_of as metal_of_layer, routing_metal as routing_metal_of};

/// Which of the nine layers of a metal's family is meant.
#[derive(Clone, Copy, PartialEq, Eq)]
pub enum Level {
    One,
    Two,
    Three,
    Four,
    Five,
    Six,
    Seven,
    Eight,
    Nine,
}

/// The layers of the symbolic layout.
#[derive(Clone, Copy, PartialEq, Eq)]
pub enum Layer {
    /// NWELL: the well of the p transistors.
    NWell,
    /// PWELL: the well of the n transistors.
    PWell,
    /// NTIE: a tie of the n well.
    NTie,
    /// PTIE: a tie of the p well.
    PTie,
    /// NDIF: n diffusion.
    NDif,
    /// PDIF: p diffusion.
    PDif,
    /// NTRANS: an n transistor.
    NTrans,
    /// PTRANS: a p transistor.
    PTrans,
    /// POLY: polysilicon.
    Poly,
    /// TPOLY: where polysilicon is kept out.
    TPoly,
    /// ALU1 to ALU9: a metal.
    Alu(Level),
    /// CALU1 to CALU9: a metal that is a connector where it is named.
    Calu(Level),
    /// TALU1 to TALU9: where the metal is kept out.
    Talu(Level),
}

/// The metal, from 1 to 6, that a layer shows a shape on: that of ALU1 to ALU6 and of CALU1 to CALU6.
/// Any other layer has none.
pub fn metal_of(layer: Layer) -> Option<u8>
    ensures { result ≡ metal_of_layer layer }
{
    match layer {
        Layer::Alu(level) | Layer::Calu(level) => routing_metal(level),
        _ => None,
    }
}

/// The number of a level, if it is at most 6.
fn routing_metal(level: Level) -> Option<u8>
    ensures { result ≡ routing_metal_of level }
{
    match level {
        Level::One => Some(1),
        Level::Two => Some(2),
        Level::Three => Some(3),
        Level::Four => Some(4),
        Level::Five => Some(5),
        Level::Six => Some(6),
        Level::Seven | Level::Eight | Level::Nine => None,
    }
}
