// The table of choices of which a machine is made anew.
ghost use Rattle.std.specs.Prelude.{◌≡◌, [], ◌+◌, ◌^◌, ◌<◌, ◌≤◌, length, IfOk, IfErr};
ghost use Rattle.boom_muxes.specs.Muxes.{IsLiteralBelow, IsTable, IsFurther, HasGrownBy, SaysMux};

use crate::mux::Mux;
use boom_literal::Literal;
use indexmap::IndexSet;
use std::alloc::Global;

/// Why there is no literal.
#[derive(Clone, Copy, Drop)]
pub enum Stop {
    /// No memory.
    Memory,
    /// The choices would weigh no less than what was given.
    Large,
}

/// Choices behind the inputs and registers, which have the numbers below `held`. No two are equal, each reads only those before
/// it, and together they weigh less than what was given.
#[derive(Drop)]
pub struct Muxes {
    pub held: u32,
    pub given: u64,
    pub weight: u64,
    pub nodes: IndexSet<Mux>,
}

impl Muxes {
    /// No choices, behind so many inputs and registers. Takes no memory.
    pub fn new(alloc: Global, held: u32, given: u64) -> Self
        requires { held + given < 2 ^ 32 }
        ensures table { IsTable result }
        ensures held { result.held ≡ held }
        ensures given { result.given ≡ given }
        ensures empty { result.nodes.keys ≡ [] }
    {
        Muxes {
            held,
            given,
            weight: 0,
            nodes: IndexSet::new(alloc),
        }
    }

    /// The number of a further choice. Takes no memory.
    fn next_number(&self) -> u32
        requires { IsTable self.now }
        ensures { result ≡ self.now.held + length self.now.nodes.keys }
    {
        self.held + self.nodes.len() as u32
    }

    /// Puts a choice that isn't there behind the others.
    fn push(&mut self, mux: Mux, weight: u64) -> Result<Literal, Stop>
        requires table { IsTable self.old }
        requires mux { IsFurther self.old mux weight }
        ensures table { IsTable self.new }
        ensures grown { HasGrownBy 1 self.old self.new }
        ensures says { IfOk result (λ l. SaysMux self.old self.new mux l) }
        ensures memory { IfErr result (λ e. e ≡ Stop.Memory) }
    {
        let number = self.next_number();
        match self.nodes.insert_full(mux) {
            Ok(_) => {
                self.weight = weight;
                Ok(Literal::Name(number))
            }
            Err(_) => Err(Stop::Memory),
        }
    }

    /// The literal of a choice, which is put in where it isn't there and is no input or register alone. `Large` where the
    /// choices would weigh as much as was given. Takes memory for it.
    pub fn add(&mut self, mux: Mux) -> Result<Literal, Stop>
        requires table { IsTable self.old }
        requires select { mux.select < self.old.held }
        requires low { IsLiteralBelow (self.old.held + length self.old.nodes.keys) mux.low }
        requires high { IsLiteralBelow (self.old.held + length self.old.nodes.keys) mux.high }
        ensures table { IsTable self.new }
        ensures grown { HasGrownBy 1 self.old self.new }
        ensures says { IfOk result (λ l. SaysMux self.old self.new mux l) }
        ensures large { IfErr result (λ e. e ≡ Stop.Large → (self.old.given ≤ self.old.weight + 4) × (self.new ≡ self.old)) }
    {
        let own = mux.weight();
        if own == 0 {
            return Ok(Literal::Name(mux.select));
        }
        if let Some(place) = self.nodes.get_index_of(&mux) {
            return Ok(Literal::Name(self.held + place as u32));
        }
        let weight = self.weight + own;
        if weight >= self.given {
            return Err(Stop::Large);
        }
        self.push(mux, weight)
    }
}
