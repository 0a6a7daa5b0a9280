// The functions that mapping needs a cell for.
ghost use Rattle.std.specs.Prelude.{◌≡◌};
ghost use Rattle.vlsi_base.specs.Kind.{kind_text};

/// What a library has to have a cell for.
#[derive(Clone, Copy, Debug, PartialEq, Eq)]
pub enum Kind {
    Inv,
    Nand2,
    Zero,
    One,
    Dff,
}

impl Kind {
    /// The word that is printed for it. Takes no memory.
    pub fn as_str(self) -> &'static str
        ensures { result.now ≡ kind_text self }
    {
        match self {
            Kind::Inv => "inv",
            Kind::Nand2 => "nand2",
            Kind::Zero => "zero",
            Kind::One => "one",
            Kind::Dff => "dff",
        }
    }
}
