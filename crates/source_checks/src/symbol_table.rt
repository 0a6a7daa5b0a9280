// What a data-flow text declares, found by its text.
ghost use Rattle.std.specs.Prelude.{◌≡◌, ◌++◌, ◌∷◌, [], IfOk, OnOk, OnSome};
ghost use Rattle.std.specs.Option.{option_copied};
ghost use Rattle.source_checks.specs.Symbols.{symbols_named, port_symbols, signal_symbols, role_of_mode, role_of_word, symbols, find};
ghost use Rattle.source_checks.specs.Known.{KnowsPlaces, position_of};

use crate::DesignFile;
use crate::places::{Places, learn_place, place_of};
use std::alloc::{AllocError, Global};
use std::collections::BTreeMap;
use std::marker::Model;
use vlsi_base::{Mode, NewName, PortGroup, Range, SignalGroup, Text, TypeWord};

/// What a name stands for.
#[derive(Clone, Copy, PartialEq, Eq)]
pub enum Role {
    Input,
    Output,
    /// A port of mode inout.
    Both,
    /// An inner signal.
    Inner,
    Register,
}

/// A declared name: its role, the range of a vector, and the line of its declaration.
#[derive(Drop)]
pub struct Symbol {
    pub text: Text,
    pub role: Role,
    pub range: Option<Range>,
    pub line: u32,
}

/// The declared names in file order, each found by its text.
#[derive(Drop)]
pub struct SymbolTable {
    items: Vec<Symbol>,
    places: Places,
}

impl Model for SymbolTable {
    ghost use Rattle.std.specs.Prelude.{List};
    ghost use Rattle.source_checks.specs.declared.symbol_table.Symbol.{Symbol};
    ghost use Rattle.source_checks.specs.Known.{KnowsPlaces};

    ghost Value = { List Symbol };

    ghost view = { λ a. a.items.items };

    ghost invariant = { λ a. KnowsPlaces a.places a.items.items };
}

fn role_of_mode(mode: Mode) -> Role
    ensures { result ≡ role_of_mode mode }
{
    match mode {
        Mode::In => Role::Input,
        Mode::Out => Role::Output,
        Mode::Inout => Role::Both,
    }
}

/// Signals of the three words for registers are registers.
fn role_of_word(word: TypeWord) -> Role
    ensures { result ≡ role_of_word word }
{
    match word {
        TypeWord::RegBit | TypeWord::RegVector | TypeWord::RegBitVector => Role::Register,
        _ => Role::Inner,
    }
}

/// Puts one symbol behind those that are there.
fn add(
    alloc: Global,
    items: &mut Vec<Symbol>,
    places: &mut Places,
    symbol: Symbol,
) -> Result<(), AllocError>
    requires { KnowsPlaces places.old items.old.items }
    ensures knows { OnOk result (KnowsPlaces places.new items.new.items) }
    ensures items { OnOk result (items.new.items ≡ items.old.items ++ symbol ∷ []) }
{
    learn_place(alloc, places, symbol.text.as_bytes(), items.len())?;
    items.push(symbol)?;
    Ok(())
}

/// Puts the names of one declaration behind those that are there.
fn add_names(
    alloc: Global,
    items: &mut Vec<Symbol>,
    places: &mut Places,
    names: &[NewName],
    kind: (Role, Option<Range>, u32),
) -> Result<(), AllocError>
    requires { KnowsPlaces places.old items.old.items }
    ensures knows { OnOk result (KnowsPlaces places.new items.new.items) }
    ensures items { OnOk result (items.new.items ≡ items.old.items ++ symbols_named kind.0 kind.1 kind.2 names.now) }
{
    for name in names {
        let symbol = Symbol {
            text: name.text.copy(alloc)?,
            role: kind.0,
            range: kind.1,
            line: kind.2,
        };
        add(alloc, items, places, symbol)?;
    }
    Ok(())
}

fn add_ports(
    alloc: Global,
    items: &mut Vec<Symbol>,
    places: &mut Places,
    groups: &[PortGroup],
) -> Result<(), AllocError>
    requires { KnowsPlaces places.old items.old.items }
    ensures knows { OnOk result (KnowsPlaces places.new items.new.items) }
    ensures items { OnOk result (items.new.items ≡ items.old.items ++ port_symbols groups.now) }
{
    for group in groups {
        let kind = (role_of_mode(group.mode), group.kind.range, group.line);
        add_names(alloc, items, places, group.names.as_slice(), kind)?;
    }
    Ok(())
}

fn add_signals(
    alloc: Global,
    items: &mut Vec<Symbol>,
    places: &mut Places,
    groups: &[SignalGroup],
) -> Result<(), AllocError>
    requires { KnowsPlaces places.old items.old.items }
    ensures knows { OnOk result (KnowsPlaces places.new items.new.items) }
    ensures items { OnOk result (items.new.items ≡ items.old.items ++ signal_symbols groups.now) }
{
    for group in groups {
        let kind = (role_of_word(group.kind.word), group.kind.range, group.line);
        add_names(alloc, items, places, group.names.as_slice(), kind)?;
    }
    Ok(())
}

impl SymbolTable {
    /// The declared names of a text.
    pub fn new(alloc: Global, design: &DesignFile) -> Result<Self, AllocError>
        ensures { IfOk result (λ table. table ≡ symbols design.now) }
    {
        let mut items = Vec::new(alloc);
        let mut places = BTreeMap::new(alloc);
        add_ports(
            alloc,
            &mut items,
            &mut places,
            design.entity.ports.as_slice(),
        )?;
        add_signals(
            alloc,
            &mut items,
            &mut places,
            design.declarations.signals.as_slice(),
        )?;
        Ok(SymbolTable { items, places })
    }

    /// No names. Takes no memory.
    pub fn empty(alloc: Global) -> Self
        ensures { result ≡ [] }
    {
        SymbolTable {
            items: Vec::new(alloc),
            places: BTreeMap::new(alloc),
        }
    }

    /// These names, and behind them those of ports. Takes memory for them, and time for the logarithm of the number of names beside.
    pub fn with_ports(self, alloc: Global, groups: &[PortGroup]) -> Result<Self, AllocError>
        ensures { IfOk result (λ table. table ≡ self ++ port_symbols groups.now) }
    {
        let SymbolTable {
            mut items,
            mut places,
        } = self;
        add_ports(alloc, &mut items, &mut places, groups)?;
        Ok(SymbolTable { items, places })
    }

    /// These names, and behind them those of one declaration of signals. Takes memory and time as `with_ports`.
    pub fn with_signals(self, alloc: Global, group: &SignalGroup) -> Result<Self, AllocError>
        ensures { IfOk result (λ table. table ≡ self ++ symbols_named (role_of_word group.now.kind.word) group.now.kind.range group.now.line group.now.names) }
    {
        let SymbolTable {
            mut items,
            mut places,
        } = self;
        let kind = (role_of_word(group.kind.word), group.kind.range, group.line);
        add_names(alloc, &mut items, &mut places, group.names.as_slice(), kind)?;
        Ok(SymbolTable { items, places })
    }

    /// The declared name of this text.
    pub fn find(&self, text: &[u8]) -> Option<&Symbol>
        ensures { option_copied result ≡ find self.now text.now }
    {
        match place_of(&self.places, text) {
            Some(place) => Some(&self.items[place]),
            None => None,
        }
    }

    /// The place of the declared name of this text.
    pub fn place(&self, text: &[u8]) -> Option<usize>
        ensures { result ≡ position_of self.now text.now }
    {
        place_of(&self.places, text)
    }

    /// The declared names, in file order. Takes no memory.
    pub fn as_slice(&self) -> &[Symbol]
        ensures { result.now ≡ self.now }
    {
        &self.items
    }
}
