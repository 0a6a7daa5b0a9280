// What inner signals say that are the gates of a net.

use and_graph::{Count, Gate, Readers, Signal};
use and_rewrite::Net;
use bool_expr::{Expr, Gate as Operator};
use std::alloc::{AllocError, Global};

// What the readers of a node say in its place, and in its inverse's: the number of a new name, or an expression that one reader takes.
#[derive(Drop)]
struct Said {
    plain: Option<Expr>,
    inverse: Option<Expr>,
}

/// What new inner signals say, and what the readers of each node say for it. The first new name has this number.
#[derive(Drop)]
pub(crate) struct Saying {
    first: u32,
    pub(crate) inner: Vec<Expr>,
    nodes: Vec<Said>,
}

fn inverse_of(alloc: Global, e: Expr) -> Result<Expr, AllocError> {
    Ok(Expr::Not(Box::new(alloc, e)?))
}

fn pair_of(alloc: Global, operator: Operator, left: Expr, right: Expr) -> Result<Expr, AllocError> {
    let left = Box::new(alloc, left)?;
    let right = Box::new(alloc, right)?;
    Ok(Expr::Pair(operator, left, right))
}

// What a reader says for a signal: an expression, or its inverse.
#[derive(Drop)]
pub(crate) struct Operand {
    e: Expr,
    is_inverse: bool,
}

impl Operand {
    pub(crate) fn expr(self, alloc: Global) -> Result<Expr, AllocError> {
        if self.is_inverse {
            inverse_of(alloc, self.e)
        } else {
            Ok(self.e)
        }
    }
}

// Two operands joined by and, or the inverse of that.
fn joined(
    alloc: Global,
    left: Operand,
    right: Operand,
    is_inverse: bool,
) -> Result<Expr, AllocError> {
    if left.is_inverse && right.is_inverse {
        let operator = if is_inverse {
            Operator::Or
        } else {
            Operator::Nor
        };
        return pair_of(alloc, operator, left.e, right.e);
    }
    let operator = if is_inverse {
        Operator::Nand
    } else {
        Operator::And
    };
    let left = left.expr(alloc)?;
    let right = right.expr(alloc)?;
    pair_of(alloc, operator, left, right)
}

// What a reader says: the name again, or the expression, which is there no more.
fn taken(said: &mut Option<Expr>) -> Expr {
    if let Some(Expr::Var(k)) = said {
        return Expr::Var(*k);
    }
    match said.take() {
        Some(e) => e,
        None => Expr::Const(false),
    }
}

impl Said {
    // What a reader says for the node or for its inverse: the one of them that there is.
    fn operand(&mut self, is_inverse: bool) -> Operand {
        let is_other = if is_inverse {
            self.inverse.is_none()
        } else {
            self.plain.is_none()
        };
        let e = if is_inverse != is_other {
            taken(&mut self.inverse)
        } else {
            taken(&mut self.plain)
        };
        Operand {
            e,
            is_inverse: is_other,
        }
    }
}

impl Saying {
    // Gives an expression a new name, and answers that.
    fn name(&mut self, e: Expr) -> Result<u32, AllocError> {
        let place = u32::try_from(self.inner.len()).unwrap_or(0);
        self.inner.push(e)?;
        Ok(self.first.wrapping_add(place))
    }

    /// What a signal's reader says.
    pub(crate) fn operand(&mut self, signal: Signal) -> Operand {
        let is_inverse = signal.is_inverse();
        match self.nodes.get_mut(signal.number() as usize) {
            Some(node) if signal.number() > 0 => node.operand(is_inverse),
            _ => Operand {
                e: Expr::Const(is_inverse),
                is_inverse: false,
            },
        }
    }

    // Enters a node that has this name, or whose inverse has it. The other of the two is read so often.
    fn enter(
        &mut self,
        alloc: Global,
        k: u32,
        is_inverse: bool,
        times: u32,
    ) -> Result<(), AllocError> {
        let mut other = None;
        if times > 1 {
            let e = inverse_of(alloc, Expr::Var(k))?;
            other = Some(Expr::Var(self.name(e)?));
        }
        self.nodes
            .push(said_of(Some(Expr::Var(k)), other, is_inverse))?;
        Ok(())
    }

    // Enters a gate, which is read so often.
    fn enter_gate(&mut self, alloc: Global, gate: Gate, count: Count) -> Result<(), AllocError> {
        let left = self.operand(gate.left);
        let right = self.operand(gate.right);
        let is_inverse = count.inverse > 0;
        let e = joined(alloc, left, right, is_inverse)?;
        if count.plain.saturating_add(count.inverse) < 2 {
            self.nodes.push(said_of(Some(e), None, is_inverse))?;
            return Ok(());
        }
        let k = self.name(e)?;
        let times = if is_inverse { count.plain } else { 0 };
        self.enter(alloc, k, is_inverse, times)
    }
}

// What readers say of a node for which the first stands, or for whose inverse it does.
fn said_of(own: Option<Expr>, other: Option<Expr>, is_inverse: bool) -> Said {
    if is_inverse {
        Said {
            plain: other,
            inverse: own,
        }
    } else {
        Said {
            plain: own,
            inverse: other,
        }
    }
}

/// What a net's gates say, whose inputs have the first names: a gate that is read more than once gets a new one, and so does each root.
/// Takes memory for the expressions.
pub(crate) fn saying_of(alloc: Global, net: &Net) -> Result<Saying, AllocError> {
    let graph = &net.graph;
    let mut readers = Readers::new(alloc, graph)?;
    for root in net.roots.iter() {
        readers.read(alloc, graph, *root)?;
        readers.read(alloc, graph, *root)?;
    }
    let mut saying = Saying {
        first: graph.inputs(),
        inner: Vec::new(alloc),
        nodes: Vec::new(alloc),
    };
    saying.nodes.push(Said {
        plain: None,
        inverse: None,
    })?;
    for k in 0..graph.inputs() {
        let count = readers.count(graph.input(k).number());
        saying.enter(alloc, k, false, count.inverse)?;
    }
    for number in graph.inputs().saturating_add(1)..graph.numbers() {
        if let Some(gate) = graph.gate(number) {
            saying.enter_gate(alloc, gate, readers.count(number))?;
        }
    }
    Ok(saying)
}
