// State machines as they are written. All lists are in file order, and lines are counted from 1.

use source_checks::Target;
use vlsi_base::{Entity, NewName, NewNames, ParsedExpr};

/// The first token of what is assigned: its line, and whether it is a name, and so no parenthesis.
#[derive(Clone, Copy)]
pub struct FirstToken {
    pub line: u32,
    pub is_name: bool,
}

/// A statement of the process that takes a step.
#[derive(Drop)]
#[cycle(body)]
pub enum Statement {
    /// An assertion, which has no effect.
    Assert(ParsedExpr),
    /// A target, the first token of what is assigned to it, and that.
    Assign(Target, FirstToken, ParsedExpr),
    /// The parts of an if.
    If(Box<Parts>),
    /// The line of `case`, the name behind it, and the branches.
    Case(u32, NewName, Box<Branches>),
}

/// Statements one after another.
#[cycle(body)]
pub enum Body {
    Finish,
    Next(Box<Statement>, Box<Body>),
}

/// The parts of an if: each condition behind the line of its first token, and what is done where it is 1; in `Either` last
/// what is done elsewhere.
#[cycle(body)]
pub enum Parts {
    Only(u32, ParsedExpr, Box<Body>),
    Either(u32, ParsedExpr, Box<Body>, Box<Body>),
    Further(u32, ParsedExpr, Box<Body>, Box<Parts>),
}

/// The branches of a case: the listed states, each with its line, and what is done in them; in `Others` what is done in all
/// states that aren't listed.
#[cycle(body)]
pub enum Branches {
    Closed,
    Others(Box<Body>),
    Listed(NewNames, Box<Body>, Box<Branches>),
}

// A loop down the chain, which can be thousands of statements long.
impl Drop for Body {
    #[cycle(release)]
    fn drop(mut self) {
        loop {
            match self {
                Body::Finish => return,
                Body::Next(_, rest) => self = Box::into_inner(rest),
            }
        }
    }
}

impl Drop for Parts {
    #[cycle(release)]
    fn drop(mut self) {
        loop {
            match self {
                Parts::Only(_, _, _) => return,
                Parts::Either(_, _, _, _) => return,
                Parts::Further(_, _, _, more) => self = Box::into_inner(more),
            }
        }
    }
}

impl Drop for Branches {
    #[cycle(release)]
    fn drop(mut self) {
        loop {
            match self {
                Branches::Closed => return,
                Branches::Others(_) => return,
                Branches::Listed(_, _, more) => self = Box::into_inner(more),
            }
        }
    }
}

/// The type of the states: the line of `type`, its name, and the states.
#[derive(Drop)]
pub struct StateType {
    pub line: u32,
    pub name: NewName,
    pub states: NewNames,
}

/// The two signals that hold states, and the line of `signal`.
#[derive(Drop)]
pub struct StateSignals {
    pub line: u32,
    pub first: NewName,
    pub second: NewName,
}

/// The process that takes a step: the names behind `process`, which have no effect, the statements, and the line of the
/// `end` behind them.
#[derive(Drop)]
pub struct StepProcess {
    pub sensitivity: NewNames,
    pub body: Body,
    pub end_line: u32,
}

/// The process at the clock: the names behind `process`, which have no effect, the condition behind the line of its first
/// token, the signal that is assigned, and the one that is assigned to it.
#[derive(Drop)]
pub struct ClockProcess {
    pub sensitivity: NewNames,
    pub condition_line: u32,
    pub condition: ParsedExpr,
    pub target: NewName,
    pub value: NewName,
}

/// A state machine.
#[derive(Drop)]
pub struct StateFile {
    pub entity: Entity,
    pub states: StateType,
    pub signals: StateSignals,
    pub step: StepProcess,
    pub clock: ClockProcess,
}
