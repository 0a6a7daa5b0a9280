// The scale of a file's numbers.
ghost use Rattle.std.specs.Prelude.{◌≡◌};
ghost use Rattle.ap_io.specs.Fields.{factor};

/// How many units of an ap file's numbers make one symbolic unit.
#[derive(Clone, Copy, PartialEq, Eq)]
pub enum Scale {
    One,
    Ten,
    Hundred,
}

impl Scale {
    /// What a number is multiplied by, so that it is at scale 100.
    pub fn factor(self) -> u64
        ensures { result ≡ factor self }
    {
        match self {
            Scale::One => 100,
            Scale::Ten => 10,
            Scale::Hundred => 1,
        }
    }
}
