// Outputs that nothing assigns.
ghost use Rattle.std.specs.Prelude.{◌≡◌, map, filter, not, IfOk, OnOk};
ghost use Rattle.std.specs.List.{flat_map};
ghost use Rattle.std.specs.Option.{option_map};
ghost use Rattle.machine_core.specs.Order.{AllDifferent};
ghost use Rattle.source_checks.specs.Codes.{name_at, least_code};
ghost use Rattle.source_checks.specs.Drivers.{target_names};
ghost use Rattle.fsm_text.specs.Written.{machine_view};
ghost use Rattle.fsm_io.specs.Known.{symbols};
ghost use Rattle.fsm_io.specs.Looks.{all_mentions};
ghost use Rattle.fsm_io.specs.Drivers.{names_at, unassigned_at, first_of, first_unassigned, is_output};
ghost use Rattle.fsm_io.specs.Pieces.{mention_of, AreMarked, MarksMore, mark_each, is_marked, is_marked_bit, bit_code, bit_named};

use crate::codes::{bits_in, least_with, name_with};
use crate::mentions::Mention;
use fsm_text::StateFile;
use source_bits::{Numbers, target_places};
use source_checks::{NameFault, Role, Symbol, Target};
use std::alloc::{AllocError, Global};

pub fn is_output(role: Role) -> bool
    ensures { result ≡ is_output role }
{
    match role {
        Role::Output => true,
        Role::Input | Role::Both | Role::Inner | Role::Register => false,
    }
}

fn mark_all(marks: &mut Vec<bool>, places: &[u32])
    ensures { marks.new.items ≡ mark_each marks.old.items places.now }
{
    for place in places {
        if (*place as usize) < marks.len() {
            marks[*place as usize] = true;
        }
    }
}

/// Marks the bits that an assignment names.
fn mark_target(
    alloc: Global,
    numbers: &Numbers,
    marks: &mut Vec<bool>,
    target: &Target,
) -> Result<(), AllocError>
    requires { AllDifferent (map (λ s. s.text) numbers.now) }
    ensures { OnOk result (MarksMore numbers.now (target_names numbers.now target.now) marks.old.items marks.new.items) }
{
    let places = target_places(alloc, numbers, target)?;
    mark_all(marks, &places);
    Ok(())
}

fn mark_mention(
    alloc: Global,
    numbers: &Numbers,
    marks: &mut Vec<bool>,
    mention: Mention,
) -> Result<(), AllocError>
    requires { AllDifferent (map (λ s. s.text) numbers.now) }
    ensures { OnOk result (MarksMore numbers.now (names_at numbers.now (mention_of mention.entry)) marks.old.items marks.new.items) }
{
    match mention {
        Mention::Assignment(target, _, _) => mark_target(alloc, numbers, marks, target),
        _ => Ok(()),
    }
}

/// For each declared bit whether something assigns it.
fn assigned_bits(
    alloc: Global,
    numbers: &Numbers,
    mentions: &[Mention],
) -> Result<Vec<bool>, AllocError>
    requires { AllDifferent (map (λ s. s.text) numbers.now) }
    ensures { IfOk result (λ marks. AreMarked numbers.now (flat_map (names_at numbers.now) (map mention_of mentions.now)) marks.items) }
{
    let mut marks = vec![in alloc; false; numbers.total() as usize]?;
    for mention in mentions {
        mark_mention(alloc, numbers, &mut marks, *mention)?;
    }
    Ok(marks)
}

fn is_marked(marks: &[bool], number: u32) -> bool
    ensures { result ≡ is_marked marks.now number }
{
    match marks.get(number as usize) {
        Some(mark) => *mark,
        None => false,
    }
}

fn is_marked_bit(numbers: &Numbers, marks: &[bool], symbol: &Symbol, bit: Option<u32>) -> bool
    requires { AllDifferent (map (λ s. s.text) numbers.now) }
    ensures { result ≡ is_marked_bit numbers.now marks.now (bit_named symbol.now.text bit) }
{
    is_marked(marks, numbers.number(symbol.text.as_bytes(), bit))
}

/// The least of these bits of a symbol that isn't marked.
fn least_unmarked(
    numbers: &Numbers,
    marks: &[bool],
    symbol: &Symbol,
    bits: &[Option<u32>],
) -> Option<Option<u32>>
    requires { AllDifferent (map (λ s. s.text) numbers.now) }
    ensures { option_map bit_code result
        ≡ least_code (filter (λ c. not (is_marked_bit numbers.now marks.now (name_at symbol.now.text c))) (map bit_code bits.now)) }
{
    let mut least: Option<Option<u32>> = None;
    for bit in bits {
        let passes = is_marked_bit(numbers, marks, symbol, *bit);
        least = least_with(passes, *bit, least);
    }
    least
}

/// The least of an output's bits that isn't marked.
fn unassigned_at(
    alloc: Global,
    numbers: &Numbers,
    marks: &[bool],
    symbol: &Symbol,
) -> Result<Option<NameFault>, AllocError>
    requires { AllDifferent (map (λ s. s.text) numbers.now) }
    ensures { IfOk result (λ found. found ≡ unassigned_at (is_marked_bit numbers.now marks.now) symbol.now) }
{
    if !is_output(symbol.role) {
        return Ok(None);
    }
    let bits = bits_in(alloc, symbol.range)?;
    let least = least_unmarked(numbers, marks, symbol, &bits);
    let found = name_with(alloc, &symbol.text, least)?;
    match found {
        Some(name) => Ok(Some(NameFault {
            line: symbol.line,
            name,
        })),
        None => Ok(None),
    }
}

fn first_unmarked(
    alloc: Global,
    numbers: &Numbers,
    marks: &[bool],
    symbols: &[Symbol],
) -> Result<Option<NameFault>, AllocError>
    requires { AllDifferent (map (λ s. s.text) numbers.now) }
    ensures { IfOk result (λ found. found ≡ first_of (unassigned_at (is_marked_bit numbers.now marks.now)) symbols.now) }
{
    for symbol in symbols {
        let found = unassigned_at(alloc, numbers, marks, symbol)?;
        if let Some(fault) = found {
            return Ok(Some(fault));
        }
    }
    Ok(None)
}

/// The first output with a bit that nothing assigns, with the least such bit. Takes memory for each declared bit.
pub fn undriven(
    alloc: Global,
    numbers: &Numbers,
    file: &StateFile,
    mentions: &[Mention],
) -> Result<Option<NameFault>, AllocError>
    requires known { numbers.now ≡ symbols (machine_view file.now) }
    requires different { AllDifferent (map (λ s. s.text) numbers.now) }
    requires mentions { map mention_of mentions.now ≡ all_mentions (machine_view file.now) }
    ensures { IfOk result (λ found. found ≡ first_unassigned (machine_view file.now)) }
{
    let marks = assigned_bits(alloc, numbers, mentions)?;
    let found = first_unmarked(alloc, numbers, &marks, numbers.table().as_slice())?;
    Ok(found)
}
