// The statements of a state machine's first process.
use bool_expr::Expr;
use vlsi_base::Name;

/// What one assignment sets: a bit of the outputs, or the next state, by its number. Variable k of an expression is number k of the
/// machine's ports.
#[derive(Drop)]
pub enum Assignment {
    Output(Name, Expr),
    Next(u32),
}

/// Statements one after another.
#[cycle(body)]
pub enum Statements {
    Finish,
    Assign(Assignment, Box<Statements>),
    Choose(Box<Parts>, Box<Statements>),
    Select(Box<Branches>, Box<Statements>),
}

// A loop down the statements, of which a source can have thousands behind one another.
impl Drop for Statements {
    #[cycle(release)]
    fn drop(mut self) {
        loop {
            match self {
                Statements::Finish => return,
                Statements::Assign(_, rest) => self = Box::into_inner(rest),
                Statements::Choose(_, rest) => self = Box::into_inner(rest),
                Statements::Select(_, rest) => self = Box::into_inner(rest),
            }
        }
    }
}

/// An `if`: its conditions with their parts, and the `else` where there is one.
#[cycle(body)]
pub enum Parts {
    Only(Expr, Box<Statements>),
    Either(Expr, Box<Statements>, Box<Statements>),
    Further(Expr, Box<Statements>, Box<Parts>),
}

// A loop down the conditions, of which an `if` can have thousands.
impl Drop for Parts {
    #[cycle(release)]
    fn drop(mut self) {
        loop {
            match self {
                Parts::Only(_condition, _part) => return,
                Parts::Either(_condition, _part, _last) => return,
                Parts::Further(_, _, more) => self = Box::into_inner(more),
            }
        }
    }
}

/// A `case`: the listed states with their branches, and `others` where it stands.
#[cycle(body)]
pub enum Branches {
    Closed,
    Others(Box<Statements>),
    Listed(Vec<u32>, Box<Statements>, Box<Branches>),
}

// A loop down the branches.
impl Drop for Branches {
    #[cycle(release)]
    fn drop(mut self) {
        loop {
            match self {
                Branches::Closed => return,
                Branches::Others(_branch) => return,
                Branches::Listed(_, _, more) => self = Box::into_inner(more),
            }
        }
    }
}
