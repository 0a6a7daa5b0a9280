// The parts of a pattern file as they are written, with their lines.

use pat_meaning::Time;
use vlsi_base::{Dir, Listed, Radix, Range, Text};

/// A column as it is written, and the line of its name. Where no format stands it is binary.
#[derive(Drop)]
pub struct ParsedColumn {
    pub name: Text,
    pub line: u32,
    pub dir: Dir,
    pub range: Option<Range>,
    pub format: Radix,
}

/// Columns in file order.
pub type ParsedColumns = Listed<ParsedColumn>;

/// A value as it is written, without its `?`, and the line of its first token. `?*` has no digits.
#[derive(Drop)]
pub struct ParsedValue {
    pub line: u32,
    pub digits: Option<Text>,
}

/// A value for each column, in their order.
pub type ParsedValues = Listed<ParsedValue>;

/// A pattern as it is written, and the line on which it begins.
#[derive(Drop)]
pub struct ParsedPattern {
    pub line: u32,
    pub time: Time,
    pub label: Option<Text>,
    pub values: ParsedValues,
}

/// Patterns in file order.
pub type ParsedPatterns = Listed<ParsedPattern>;

/// A pattern file as it is written.
#[derive(Drop)]
pub struct PatternFile {
    pub columns: ParsedColumns,
    pub patterns: ParsedPatterns,
}
