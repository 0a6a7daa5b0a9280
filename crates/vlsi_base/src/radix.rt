// Digits of literals.
ghost use Rattle.std.specs.Prelude.{◌≡◌, ◌<◌, ◌≤◌};
ghost use Rattle.vlsi_base.specs.Radix.{digit_width};

/// How many bits a digit of a literal spells: 1, 3 or 4.
#[derive(Clone, Copy, PartialEq, Eq)]
pub enum Radix {
    Binary,
    Octal,
    Hexadecimal,
}

impl Radix {
    /// How many bits a digit spells. Takes no memory.
    pub fn digit_width(self) -> usize
        ensures width { result ≡ digit_width self }
        ensures some { 0 < result }
        ensures most { result ≤ 4 }
    {
        match self {
            Radix::Binary => 1,
            Radix::Octal => 3,
            Radix::Hexadecimal => 4,
        }
    }
}
