// The codes of states.
ghost use Rattle.std.specs.Prelude.{◌≡◌, ◌<◌, length};
ghost use Rattle.bool_expr.specs.Expression.{bit};
ghost use Rattle.fsm_machine.specs.Codes.{code_of};

use bool_expr::Bits;
use std::marker::Model;

/// The codes of a state machine's states in the order of their declaration, bit 0 first, and whether they were made with one bit for
/// each state.
#[derive(Drop)]
pub struct Codes {
    one_hot: bool,
    width: u32,
    codes: Vec<Bits>,
}

impl Model for Codes {
    ghost use Rattle.fsm_machine.specs.Codes.{Codes as Meaning};

    ghost Value = { Meaning };

    ghost view = { λ a. record { one_hot = a.one_hot; width = a.width; codes = a.codes.items } };
}

impl Codes {
    /// These codes. Takes no memory.
    pub fn new(one_hot: bool, width: u32, codes: Vec<Bits>) -> Self
        ensures { result ≡ record { one_hot = one_hot; width = width; codes = codes.items } }
    {
        Codes {
            one_hot,
            width,
            codes,
        }
    }

    /// Whether there is one bit for each state, so that the bit alone tells the state.
    pub fn is_one_hot(&self) -> bool
        ensures { result ≡ self.now.one_hot }
    {
        self.one_hot
    }

    /// How many bits a code has.
    pub fn width(&self) -> u32
        ensures { result ≡ self.now.width }
    {
        self.width
    }

    /// The codes, one for each state.
    pub fn as_slice(&self) -> &[Bits]
        ensures { result.now ≡ self.now.codes }
    {
        &self.codes
    }

    /// Bit k of the code of a state; past its end, and for a state without a code, there is no bit, and it reads as 0.
    pub fn bit(&self, state: u32, k: u32) -> bool
        ensures { result ≡ bit (code_of self.now state) k }
    {
        let Some(code) = self.codes.get(state as usize) else {
            return false;
        };
        code.as_slice().get(k as usize).copied().unwrap_or(false)
    }
}
