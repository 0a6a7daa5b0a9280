// Programs over an array of bits: lists of operators, each with a place for its result.
ghost use Rattle.std.specs.Prelude.{◌≡◌, ℕ, ◌+◌, ◌<◌, ◌≤◌, ◌++◌, ◌∷◌, [], IfOk, length};
ghost use Rattle.bool_expr.specs.Expression.{bit};
ghost use Rattle.asimut_sim.specs.Operator.{inverted as inverted_bit, chosen, ReadsBelow, HasConstants};
ghost use Rattle.asimut_sim.specs.Program.{extent, IsProgram, Obeys, GoesOn};

use crate::operator::Operator;
use std::alloc::{AllocError, Global};

/// Operators in their order, and the place of the first one's result. The other results stand behind it.
#[derive(Drop)]
pub(crate) struct Program {
    pub(crate) start: usize,
    pub(crate) operators: Vec<Operator>,
}

/// The place that stands so many behind another. Each place is a byte of the array that a simulation needs, so past 2^64
/// there is no such memory.
pub(crate) fn place_behind(start: usize, count: usize) -> Result<usize, AllocError>
    ensures { IfOk result (λ place. place ≡ start + count) }
{
    start.checked_add(count).ok_or(AllocError)
}

fn inverted(inverts: bool, bit: bool) -> bool
    ensures { result ≡ inverted_bit inverts bit }
{
    if inverts { !bit } else { bit }
}

fn value(operator: &Operator, bits: &[bool]) -> bool
    requires { ReadsBelow (length bits.now) operator.now }
    ensures { result ≡ chosen bits.now operator.now }
{
    let first = inverted(operator.inverts_first, bits[operator.first]);
    let second = inverted(operator.inverts_second, bits[operator.second]);
    if bits[operator.condition] {
        first
    } else {
        second
    }
}

impl Program {
    /// A program without operators yet.
    pub(crate) fn new(alloc: Global, start: usize) -> Program
        requires { 2 ≤ start }
        ensures program { IsProgram result }
        ensures start { result.start ≡ start }
        ensures none { result.operators.items ≡ [] }
    {
        Program {
            start,
            operators: Vec::new(alloc),
        }
    }

    /// Puts an operator behind the others, and answers the place of its result.
    pub(crate) fn push(&mut self, operator: Operator) -> Result<usize, AllocError>
        requires program { IsProgram self.old }
        requires reads { ReadsBelow (extent self.old) operator }
        ensures place { IfOk result (λ place. place ≡ extent self.old) }
        ensures goes_on { IfOk result (λ _. GoesOn self.old self.new) }
        ensures operators { IfOk result (λ _. self.new.operators.items ≡ self.old.operators.items ++ operator ∷ []) }
    {
        let place = place_behind(self.start, self.operators.len())?;
        self.operators.push(operator)?;
        Ok(place)
    }

    /// The place behind the last result.
    pub(crate) fn end(&self) -> Result<usize, AllocError>
        ensures { IfOk result (λ place. place ≡ extent self.now) }
    {
        place_behind(self.start, self.operators.len())
    }

    /// Gives each operator's place its value, in their order.
    pub(crate) fn run(&self, bits: &mut [bool])
        requires program { IsProgram self.now }
        requires room { extent self.now ≤ length bits.old }
        requires constants { HasConstants bits.old }
        ensures before { (k : ℕ) → k < self.now.start → bit bits.new k ≡ bit bits.old k }
        ensures obeys { Obeys self.now bits.new }
    {
        for (k, operator) in self.operators.iter().enumerate() {
            bits[self.start + k] = value(operator, bits);
        }
    }
}
