// Targets without the bits of a range that aren't declared, of which none is counted.
ghost use Rattle.std.specs.Prelude.{◌≡◌, ◌≤◌, ◌+◌, filter, map, length, if◌then◌else◌};
ghost use Rattle.vlsi_base.specs.Range.{range_bits, range_width};
ghost use Rattle.machine_core.specs.Order.{AllDifferent};
ghost use Rattle.source_checks.specs.Symbols.{all_names, find, has_bit};
ghost use Rattle.source_checks.specs.Drivers.{target_names};
ghost use Rattle.fsm_text.specs.Chains.{counted_bits, range_found};

use source_checks::{Selection, SymbolTable, Target};
use vlsi_base::Range;

/// The least number of a bit that a range may hold.
fn lowest(range: Range) -> u32
    ensures { result ≡ (if range.falls then range.right else range.left) }
{
    if range.falls { range.right } else { range.left }
}

/// The greatest number of a bit that a range may hold.
fn highest(range: Range) -> u32
    ensures { result ≡ (if range.falls then range.left else range.right) }
{
    if range.falls { range.left } else { range.right }
}

/// A range of bits without those before and behind the bounds of another.
fn clipped(bits: Range, within: Range) -> Range
    ensures same { filter (has_bit within) (range_bits result) ≡ filter (has_bit within) (range_bits bits) }
    ensures few { range_width result ≤ range_width within }
{
    let low = lowest(within);
    let high = highest(within);
    if bits.falls {
        Range {
            left: bits.left.min(high),
            falls: true,
            right: bits.right.max(low),
            line: bits.line,
        }
    } else {
        Range {
            left: bits.left.max(low),
            falls: false,
            right: bits.right.min(high),
            line: bits.line,
        }
    }
}

/// The range in which this name is declared, if it has one.
fn declared_range(table: &SymbolTable, text: &[u8]) -> Option<Range>
    ensures { result ≡ range_found (find table.now text.now) }
{
    match table.find(text) {
        Some(symbol) => symbol.range,
        None => None,
    }
}

/// The target, whose range is cut to that of its name, so that it has no more bits than all names, or one: the same bits are
/// counted. Where its name has no range, one bit stands for it.
pub fn declared_part(table: &SymbolTable, target: Target) -> Target
    requires different { AllDifferent (map (λ s. s.text) table.now) }
    ensures counted { counted_bits table.now result ≡ counted_bits table.now target }
    ensures few { length (target_names table.now result) ≤ length (all_names table.now) + 1 }
{
    let Selection::Bits(bits) = target.selection else {
        return target;
    };
    let selection = match declared_range(table, target.name.as_bytes()) {
        Some(within) => Selection::Bits(clipped(bits, within)),
        None => Selection::Bit(bits.left),
    };
    Target {
        name: target.name,
        line: target.line,
        selection,
    }
}
