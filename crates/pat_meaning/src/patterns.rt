// The parts of a pattern file.
ghost use Rattle.std.specs.Prelude.{◌≡◌, ◌++◌, ◌∷◌, [], OnOk, OnErr};

use bool_expr::Bits;
use std::alloc::AllocError;
use std::marker::Model;
use vlsi_base::{Dir, Radix, Text};

/// The bits of a vector that a column lists, from the leftmost to the rightmost.
#[derive(Clone, Copy, PartialEq, Eq)]
pub struct BitRange {
    pub left: u32,
    pub right: u32,
}

/// A port or bits of one, as a pattern file lists them, and what its digits spell; a scalar has no range.
#[derive(Drop)]
pub struct Column {
    pub name: Text,
    pub dir: Dir,
    pub range: Option<BitRange>,
    pub format: Radix,
}

/// The unit of a time as it is written.
#[derive(Clone, Copy, PartialEq, Eq)]
pub enum TimeUnit {
    Femtosecond,
    Picosecond,
    Nanosecond,
    Microsecond,
    Millisecond,
}

/// A pattern's time as it is written: by itself, or added to the time of the pattern before.
#[derive(Clone, Copy, PartialEq, Eq)]
pub struct Time {
    pub is_added: bool,
    pub number: u32,
    pub unit: TimeUnit,
}

/// What a pattern says of a column: its bits from the left, or nothing, which only an output may have.
#[derive(Drop)]
pub enum Value {
    Digits(Bits),
    Any,
}

/// A value for each column, in their order.
#[derive(Drop)]
pub struct Values {
    items: Vec<Value>,
}

impl Model for Values {
    ghost use Rattle.std.specs.Prelude.{List};
    ghost use Rattle.pat_meaning.specs.declared.patterns.Value.{Value as Digits};

    ghost Value = { List Digits };

    ghost view = { λ a. a.items.items };
}

impl Values {
    /// These values. Takes no memory.
    pub fn new(items: Vec<Value>) -> Self
        ensures { result ≡ items.items }
    {
        Values { items }
    }

    /// The values, one for each column. Takes no memory.
    pub fn as_slice(&self) -> &[Value]
        ensures { result.now ≡ self.now }
    {
        &self.items
    }
}

/// One pattern.
#[derive(Drop)]
pub struct Pattern {
    pub time: Time,
    pub label: Option<Text>,
    pub values: Values,
}

/// Columns in file order.
#[derive(Drop)]
pub struct Columns {
    items: Vec<Column>,
}

impl Model for Columns {
    ghost use Rattle.std.specs.Prelude.{List};
    ghost use Rattle.pat_meaning.specs.declared.patterns.Column.{Column};

    ghost Value = { List Column };

    ghost view = { λ a. a.items.items };
}

impl Columns {
    /// These columns. Takes no memory.
    pub fn new(items: Vec<Column>) -> Self
        ensures { result ≡ items.items }
    {
        Columns { items }
    }

    /// The columns, in file order. Takes no memory.
    pub fn as_slice(&self) -> &[Column]
        ensures { result.now ≡ self.now }
    {
        &self.items
    }
}

/// Patterns in file order.
#[derive(Drop)]
pub struct PatternList {
    items: Vec<Pattern>,
}

impl Model for PatternList {
    ghost use Rattle.std.specs.Prelude.{List};
    ghost use Rattle.pat_meaning.specs.declared.patterns.Pattern.{Pattern};

    ghost Value = { List Pattern };

    ghost view = { λ a. a.items.items };
}

impl PatternList {
    /// These patterns. Takes no memory.
    pub fn new(items: Vec<Pattern>) -> Self
        ensures { result ≡ items.items }
    {
        PatternList { items }
    }

    /// The patterns, in file order. Takes no memory.
    pub fn as_slice(&self) -> &[Pattern]
        ensures { result.now ≡ self.now }
    {
        &self.items
    }

    /// Puts a pattern behind those that are there.
    pub fn push(&mut self, pattern: Pattern) -> Result<(), AllocError>
        ensures ok { OnOk result (self.new ≡ self.old ++ pattern ∷ []) }
        ensures err { OnErr result (self.new ≡ self.old) }
    {
        self.items.push(pattern)?;
        Ok(())
    }
}

/// A pattern file: its columns, and its patterns in a time that never falls.
#[derive(Drop)]
pub struct Patterns {
    pub columns: Columns,
    pub patterns: PatternList,
}
