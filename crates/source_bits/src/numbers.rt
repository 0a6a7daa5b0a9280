// Numbers of declared bits: name by name in file order, a vector from the left.
ghost use Rattle.std.specs.Prelude.{◌≡◌, ◌+◌, ◌<◌, ◌≤◌, ◌^◌, ℕ, List, Option, [], length, map, Some, None, IfOk, slice_index_or};
ghost use Rattle.std.specs.List.{slice_get};
ghost use Rattle.std.specs.Option.{option_map};
ghost use Rattle.machine_core.specs.Order.{AllDifferent};
ghost use Rattle.source_checks.specs.Symbols.{symbol_names, all_names, find};
ghost use Rattle.source_checks.specs.Formula.{place};
ghost use Rattle.source_bits.specs.Numbering.{named_bit, starts_from, IsNumbered, number_in, LiesWithin, Begins};

use crate::ranges::{Declared, bit_at, number_in, width};
use source_checks::{Symbol, SymbolTable};
use std::alloc::{AllocError, Global};
use std::marker::Model;
use vlsi_base::{Name, Text};

/// The bits of all declared names, numbered from 0 in file order, a vector from the left. Contracts see the list of the
/// declared names.
#[derive(Drop)]
pub struct Numbers {
    table: SymbolTable,
    starts: Vec<u32>,
    total: u32,
}

impl Model for Numbers {
    ghost use Rattle.std.specs.Prelude.{List};
    ghost use Rattle.source_checks.specs.declared.symbol_table.Symbol.{Symbol};
    ghost use Rattle.source_bits.specs.Numbering.{IsNumbered};

    ghost Value = { List Symbol };

    ghost view = { λ a. a.table };

    ghost invariant = { λ a. IsNumbered a.starts.items a.total a.table };
}

/// The number behind so many further bits.
fn behind(number: u32, bits: u64) -> u32
    requires { number + bits < 2 ^ 32 }
    ensures { result ≡ number + bits }
{
    number + bits as u32
}

/// The numbers at which the bits of each name begin, and how many bits all have.
fn starts(alloc: Global, symbols: &[Symbol]) -> Result<(Vec<u32>, u32), AllocError>
    requires few { length (all_names symbols.now) < 2 ^ 32 }
    ensures { IfOk result (λ made. IsNumbered made.0.items made.1 symbols.now) }
{
    let mut starts = Vec::new(alloc);
    let mut next = 0u32;
    for symbol in symbols {
        starts.push(next)?;
        next = behind(next, width(symbol.range));
    }
    Ok((starts, next))
}

/// The last place at which a number up to this one stands, or some such place behind which a greater one stands.
fn place_below(starts: &[u32], number: u32) -> usize
    requires some { 0 < length starts.now }
    requires first { slice_index_or starts.now 0 0 ≤ number }
    ensures { Begins starts.now number result }
{
    let mut low = 0;
    let mut high = starts.len();
    while high - low > 1 {
        let middle = low + (high - low) / 2;
        if starts[middle] <= number {
            low = middle;
        } else {
            high = middle;
        }
    }
    low
}

impl Numbers {
    /// The numbers of these names' bits. Takes memory for a number of each name.
    pub fn new(alloc: Global, table: SymbolTable) -> Result<Self, AllocError>
        requires few { length (all_names table) < 2 ^ 32 }
        ensures { IfOk result (λ numbers. numbers ≡ table) }
    {
        let (starts, total) = starts(alloc, table.as_slice())?;
        Ok(Numbers {
            table,
            starts,
            total,
        })
    }

    /// The declared names, whose bits have the numbers. Takes no memory.
    pub fn table(&self) -> &SymbolTable
        ensures { result.now ≡ self.now }
    {
        &self.table
    }

    /// How many bits there are.
    pub fn total(&self) -> u32
        ensures { result ≡ length (all_names self.now) }
    {
        self.total
    }

    /// How a name is declared.
    pub(crate) fn declared(&self, text: &[u8]) -> Option<Declared>
        requires { AllDifferent (map (λ s. s.text) self.now) }
        ensures number { (bit : Option ℕ) → number_in (length (all_names self.now)) result (named_bit text.now bit)
            ≡ place (all_names self.now) (named_bit text.now bit) }
        ensures within { LiesWithin (length (all_names self.now)) result }
        ensures range { option_map (λ d. d.range) result ≡ option_map (λ s. s.range) (find self.now text.now) }
    {
        match self.table.place(text) {
            Some(place) => {
                let first = self.starts[place];
                let symbols = self.table.as_slice();
                let symbol = &symbols[place];
                let range = symbol.range;
                Some(Declared { first, range })
            }
            None => None,
        }
    }

    /// The number of a bit of a name, or the total where no such bit is declared.
    pub fn number(&self, text: &[u8], bit: Option<u32>) -> u32
        requires { AllDifferent (map (λ s. s.text) self.now) }
        ensures { result ≡ place (all_names self.now) (record { text = text.now; bit = bit }) }
    {
        number_in(self.total(), self.declared(text), bit)
    }

    /// The name of the bit with a number.
    pub fn name(&self, alloc: Global, number: u32) -> Result<Name, AllocError>
        requires { number < length (all_names self.now) }
        ensures { IfOk result (λ name. slice_get (all_names self.now) number ≡ Some name) }
    {
        let place = place_below(&self.starts, number);
        let first = self.starts[place];
        let symbols = self.table.as_slice();
        let symbol = &symbols[place];
        let bit = bit_at(symbol.range, number - first);
        let text = symbol.text.copy(alloc)?;
        Ok(Name { text, bit })
    }
}
