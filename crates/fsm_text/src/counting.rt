// Counting the assignments of each output bit and of the next state.
ghost use Rattle.std.specs.Prelude.{◌≡◌, ◌<◌, ◌^◌, ◌∷◌, [], ◌++◌, List, None, Some, IfOk, MatchOption, true, false, filter, map, replicate, length};
ghost use Rattle.std.specs.Bool.{OnTrue, OnFalse};
ghost use Rattle.std.specs.Option.{option_copied};
ghost use Rattle.vlsi_base.specs.declared.name.Name.{Name};
ghost use Rattle.machine_core.specs.Order.{AllDifferent};
ghost use Rattle.source_checks.specs.Symbols.{port_symbols, all_names};
ghost use Rattle.fsm_text.specs.Chains.{named_by, assigned_here, is_out, next_symbols, counted_symbols, counted_bits, taken, overfull, passes_before, IsTally};
ghost use Rattle.fsm_text.specs.Texts.{chain_error, PassesBefore};

use crate::clipping::declared_part;
use grammar_theory::{CHAIN, DEPTH, Form, Stop};
use source_bits::{Numbers, target_places};
use source_checks::{SymbolTable, Target, repeated};
use std::alloc::{AllocError, Global};
use vbe_text::target;
use vhdl_front::Cursor;
use vhdl_token::{PlacedToken, Sign, Tokens};
use vlsi_base::{
    Limit, LimitKind, Mode, NewName, NewNames, PortGroup, Pragma, ReadError, SignalGroup,
    SignalType, Text, TypeWord,
};

/// One assignment more than there may be of a bit.
pub fn too_long_chain() -> ReadError
    ensures { result ≡ chain_error }
{
    ReadError::Limit(Limit {
        which: LimitKind::Chain,
        reached: u64::from(CHAIN) + 1,
    })
}

/// The name in the first of these pragmas that has this key.
pub fn named_by<'a>(pragmas: &'a [Pragma], key: &[u8]) -> Option<&'a Text>
    ensures { option_copied result ≡ named_by key.now pragmas.now }
{
    for pragma in pragmas {
        if pragma.key.as_bytes() == key {
            return Some(&pragma.name);
        }
    }
    None
}

/// The target that these tokens begin with, where `<=` stands behind it.
fn assigned_here(alloc: Global, tokens: &[PlacedToken]) -> Result<Option<Target>, AllocError>
    ensures { IfOk result (λ found. found ≡ assigned_here tokens.now) }
{
    let mut cursor = Cursor::new(alloc, tokens);
    match target(&mut cursor, DEPTH) {
        Ok(target) => {
            if cursor.at(Form::Sign(Sign::Assign)) {
                Ok(Some(target))
            } else {
                Ok(None)
            }
        }
        Err(Stop::Refused(_)) => Ok(None),
        Err(Stop::Memory) => Err(AllocError),
    }
}

/// The outputs among these ports.
fn outputs(alloc: Global, groups: &[PortGroup]) -> Result<SymbolTable, AllocError>
    ensures { IfOk result (λ table. table ≡ port_symbols (filter is_out groups.now)) }
{
    let mut table = SymbolTable::empty(alloc);
    for k in 0..groups.len() {
        if groups[k].mode == Mode::Out {
            table = table.with_ports(alloc, &groups[k..k + 1])?;
        }
    }
    Ok(table)
}

/// These names, and behind them the next state, if it isn't one of them.
fn with_next(
    alloc: Global,
    table: SymbolTable,
    next: Option<&Text>,
) -> Result<SymbolTable, AllocError>
    ensures { IfOk result (λ made. made ≡ table ++ next_symbols table (option_copied next.entry)) }
{
    let Some(next) = next else {
        return Ok(table);
    };
    if table.find(next.as_bytes()).is_some() {
        return Ok(table);
    }
    let mut names = Vec::new(alloc);
    names.push(NewName {
        text: next.copy(alloc)?,
        line: 0,
    })?;
    let group = SignalGroup {
        line: 0,
        names: NewNames::new(names),
        kind: SignalType {
            word: TypeWord::Bit,
            line: 0,
            range: None,
        },
    };
    table.with_signals(alloc, &group)
}

/// How often each bit was assigned, of those that are counted.
#[derive(Drop)]
struct Tally {
    numbers: Numbers,
    times: Vec<u32>,
}

impl Tally {
    /// Nothing was assigned so far of what is counted.
    fn new(alloc: Global, table: SymbolTable) -> Result<Tally, AllocError>
        requires few { length (all_names table) < 2 ^ 32 }
        ensures known { IfOk result (λ t. t.numbers ≡ table) }
        ensures empty { IfOk result (λ t. IsTally t.numbers t.times.items []) }
    {
        let numbers = Numbers::new(alloc, table)?;
        let mut times = Vec::new(alloc);
        times.resize(numbers.total() as usize, 0)?;
        Ok(Tally { numbers, times })
    }

    /// Counts one more assignment of each of the target's bits that are counted, one after another, unless one of them was
    /// assigned as often as may be: then the answer is false.
    fn add(&mut self, alloc: Global, target: &Target) -> Result<bool, AllocError>
        requires different { AllDifferent (map (λ s. s.text) self.old.numbers) }
        ensures known { self.new.numbers ≡ self.old.numbers }
        ensures counted { IfOk result (λ fits. (before : List Name) → IsTally self.old.numbers self.old.times.items before
            → MatchOption (taken before (counted_bits self.old.numbers target.now)) (fits ≡ false)
            (λ after. (fits ≡ true) × IsTally self.new.numbers self.new.times.items after)) }
    {
        let places = target_places(alloc, &self.numbers, target)?;
        for number in &places {
            let place = *number as usize;
            if place < self.times.len() {
                if self.times[place] >= CHAIN {
                    return Ok(false);
                }
                self.times[place] += 1;
            }
        }
        Ok(true)
    }
}

/// Whether, before only so many tokens are left, an assignment begins that is one more than a bit may have.
fn passes_in(
    alloc: Global,
    tally: Tally,
    tokens: &[PlacedToken],
    left: usize,
) -> Result<bool, AllocError>
    requires different { AllDifferent (map (λ s. s.text) tally.numbers) }
    requires empty { IsTally tally.numbers tally.times.items [] }
    ensures { IfOk result (λ passes. passes ≡ passes_before left (overfull tally.numbers [] tokens.now)) }
{
    let mut tally = tally;
    let mut rest = tokens;
    while rest.len() > left {
        if let Some(target) = assigned_here(alloc, rest)? {
            let target = declared_part(tally.numbers.table(), target);
            if !tally.add(alloc, &target)? {
                return Ok(true);
            }
        }
        rest = &rest[1..];
    }
    Ok(false)
}

/// The same over a whole text. Where its entity can't be read, nothing is assigned before.
pub fn passes_chain(alloc: Global, tokens: &Tokens, left: usize) -> Result<bool, AllocError>
    ensures passes { IfOk result (λ passes. OnTrue passes (PassesBefore tokens.now left)) }
    ensures none { IfOk result (λ passes. OnFalse passes (PassesBefore tokens.now left → ⊥)) }
{
    let mut cursor = Cursor::new(alloc, tokens.items.as_slice());
    match cursor.entity(DEPTH) {
        Ok(entity) => {
            let next = named_by(tokens.pragmas.as_slice(), b"next_state");
            let table = outputs(alloc, entity.ports.as_slice())?;
            let table = with_next(alloc, table, next)?;
            if repeated(&table).is_some() {
                return Ok(false);
            }
            let tally = Tally::new(alloc, table)?;
            passes_in(alloc, tally, cursor.rest(), left)
        }
        Err(Stop::Refused(_)) => Ok(false),
        Err(Stop::Memory) => Err(AllocError),
    }
}
