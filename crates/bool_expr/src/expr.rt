// Expressions, bits and variables.

use vlsi_base::Listed;

/// An operator of two operands.
#[derive(Clone, Copy, PartialEq, Eq)]
pub enum Gate {
    And,
    Or,
    Nand,
    Nor,
    Xor,
    Xnor,
}

/// An expression over variables that are numbered from 0.
pub enum Expr {
    Const(bool),
    Var(u32),
    Not(Box<Expr>),
    Pair(Gate, Box<Expr>, Box<Expr>),
    /// The second part where the first, a condition, is 1, and the third elsewhere.
    Choice(Box<Expr>, Box<Expr>, Box<Expr>),
}

// A loop down the chains that sources make, which can be thousands of operators long.
impl Drop for Expr {
    fn drop(mut self) {
        loop {
            match self {
                Expr::Const(_) => return,
                Expr::Var(_) => return,
                Expr::Not(inner) => self = Box::into_inner(inner),
                Expr::Pair(_, left, _) => self = Box::into_inner(left),
                Expr::Choice(_, _, last) => self = Box::into_inner(last),
            }
        }
    }
}

/// Bits in their order.
pub type Bits = Listed<bool>;

/// Variables in their order.
pub type Vars = Listed<u32>;
