// Statements of a data-flow architecture as they are written. All lines are counted from 1.

use vlsi_base::{Declarations, Entity, Listed, ParsedExpr, Range, Text};

/// Which bits of its name a target drives.
#[derive(Clone, Copy, PartialEq, Eq)]
pub enum Selection {
    Whole,
    Bit(u32),
    Bits(Range),
}

/// What an assignment drives, and the line of its name.
#[derive(Drop)]
pub struct Target {
    pub name: Text,
    pub line: u32,
    pub selection: Selection,
}

/// A value and the condition under which it is taken, and the line of the condition's first token.
#[derive(Drop)]
pub struct Guarded {
    pub value: ParsedExpr,
    pub condition: ParsedExpr,
    pub line: u32,
}

/// Alternatives of a choice in their order.
pub type GuardedList = Listed<Guarded>;

/// `VALUE when CONDITION else VALUE when CONDITION else .. VALUE`: the first alternative whose condition is 1 counts.
#[derive(Drop)]
pub struct Choice {
    pub alternatives: GuardedList,
    pub otherwise: ParsedExpr,
}

/// `TARGET <= CHOICE`
#[derive(Drop)]
pub struct Assignment {
    pub target: Target,
    pub choice: Choice,
}

/// Assignments in file order.
pub type Assignments = Listed<Assignment>;

/// A block: its guard, the line of the guard's first token, and the guarded assignments.
#[derive(Drop)]
pub struct BlockStatement {
    pub guard: ParsedExpr,
    pub line: u32,
    pub assignments: Assignments,
}

/// A statement of an architecture.
#[derive(Drop)]
pub enum Statement {
    /// An assertion, which has no effect.
    Assert(ParsedExpr),
    Assign(Assignment),
    Block(BlockStatement),
}

/// Statements in file order.
pub type Statements = Listed<Statement>;

/// A data-flow text as it is written.
#[derive(Drop)]
pub struct DesignFile {
    pub entity: Entity,
    pub declarations: Declarations,
    pub statements: Statements,
}
