// What one proposes to say in place of a machine's equations.

use bool_expr::Expr;

/// What a machine could say in place of what a given one says. Variables are numbers of names: the inputs and registers of the given
/// machine, then the new inner signals, then its equations.
#[derive(Drop)]
pub struct Proposal {
    /// What new inner signals say, in their order.
    pub inner: Vec<Expr>,
    /// What equations say now, in the order of the given ones; `None`, and past the end, what they said.
    pub equations: Vec<Option<Expr>>,
    /// What registers load now, next and enable of each in turn; `None`, and past the end, what they loaded.
    pub loads: Vec<Option<Expr>>,
}
