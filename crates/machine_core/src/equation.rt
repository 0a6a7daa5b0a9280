// The equations and registers of a machine.

use bool_expr::Expr;
use vlsi_base::{Listed, Name};

/// A signal that has the value of an expression. Variable k of the expression is number k of the machine's names.
#[derive(Drop)]
pub struct Equation {
    pub name: Name,
    pub expr: Expr,
}

/// One bit of storage. At the clock's rise it takes `next` where `enable` is 1, and keeps its value elsewhere.
#[derive(Drop)]
pub struct Register {
    pub name: Name,
    pub next: Expr,
    pub enable: Expr,
}

/// Equations in their order.
pub type Equations = Listed<Equation>;

/// Registers in their order.
pub type Registers = Listed<Register>;
