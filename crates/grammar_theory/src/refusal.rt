// Why a token is refused.
ghost use Rattle.std.specs.Prelude.{◌≡◌};
ghost use Rattle.grammar_theory.specs.declared.refusal.Stop.TheVariants.{Memory};

use std::alloc::{AllocError, AllocFailed};
use vlsi_base::Text;

/// What a token does, beside standing in its place, that it must not do.
#[derive(Drop)]
pub enum Breach {
    /// It declares this name a second time, in a declaration that begins on this line.
    Twice(u32, Text),
    /// It opens more parentheses, ifs and cases than may be open together.
    Depth,
    /// With its declaration all ports and signals have so many bits, or as many as a `u64` can tell.
    Bits(u64),
    /// It is one operator more than an expression may have, or the first of one alternative more than a choice may have.
    Chain,
    /// It is spelled otherwise than what has to stand here, which is a fault of syntax.
    Spelling,
}

/// Why a token is refused.
#[derive(Drop)]
pub enum Reason {
    /// With this token the tokens so far begin no sentence.
    Syntax,
    /// What it does there is a breach.
    Breach(Breach),
}

/// Why a token is refused, and how many tokens are left, with that token; 0 is the end.
#[derive(Drop)]
pub struct Refusal {
    pub reason: Reason,
    pub left: usize,
}

/// Why a reader stops.
#[derive(Drop)]
pub enum Stop {
    Memory,
    Refused(Refusal),
}

impl From<AllocError> for Stop {
    ghost from_gives = { λ _ e. e ≡ Memory };

    fn from(_: AllocError) -> Self {
        Stop::Memory
    }
}

impl<T: Drop> From<AllocFailed<T>> for Stop {
    ghost from_gives = { λ _ e. e ≡ Memory };

    fn from(_: AllocFailed<T>) -> Self {
        Stop::Memory
    }
}
