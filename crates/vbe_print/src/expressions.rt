// Expressions as they are written.
ghost use Rattle.std.specs.Prelude.{◌≡◌, ◌++◌, ◌∷◌, ◌+◌, ◌≤◌, [], map, length, OnOk, IfOk};
ghost use Rattle.bool_expr.specs.Expression.{choice, IsOver};
ghost use Rattle.bool_expr.specs.View.{view};
ghost use Rattle.spell_theory.specs.Layout.{gap, text_of};
ghost use Rattle.vhdl_print.specs.Outline.{a_word};
ghost use Rattle.vst_print.specs.Structure.{name_layout};
ghost use Rattle.vbe_print.specs.Expressions.{gate_word, chains, in_parentheses, primary, operand, leading, join, laid, expression_layout, value_layout};
ghost use Rattle.vbe_print.specs.Pieces.{weight, links_text, AreOperands};

use bool_expr::{Expr, Gate};
use std::alloc::{AllocError, Global};
use vlsi_base::{FileBytes, Name};

/// What expressions are written with: the names of their variables, in the order of the variables' numbers.
#[derive(Clone, Copy)]
pub struct Speller<'a> {
    /// Where the text of a name takes its memory, which it gives back.
    pub alloc: Global,
    pub names: &'a [Name],
}

// Whether more than two operands may be joined by both gates, which are one.
fn chains(gate: Gate, inner: Gate) -> bool
    ensures { result ≡ chains gate inner }
{
    match gate {
        Gate::Nand | Gate::Nor => false,
        Gate::And | Gate::Or | Gate::Xor | Gate::Xnor => gate == inner,
    }
}

// A gate between its operands.
fn gate_word(out: &mut FileBytes, gate: Gate) -> Result<(), AllocError>
    ensures { OnOk result (out.new ≡ out.old ++ text_of (gap ∷ a_word (gate_word gate) ∷ gap ∷ [])) }
{
    match gate {
        Gate::And => out.append(b" and "),
        Gate::Or => out.append(b" or "),
        Gate::Nand => out.append(b" nand "),
        Gate::Nor => out.append(b" nor "),
        Gate::Xor => out.append(b" xor "),
        Gate::Xnor => out.append(b" xnor "),
    }
}

/// Appends a name, with its bit in parentheses where it has one.
pub fn spell_name(alloc: Global, out: &mut FileBytes, name: &Name) -> Result<(), AllocError>
    ensures { OnOk result (out.new ≡ out.old ++ text_of (name_layout name.now)) }
{
    let text = name.to_text(alloc)?;
    out.append(text.as_bytes())
}

impl Speller<'_> {
    // An expression in parentheses.
    #[cycle(whole)]
    fn enclosed(&self, out: &mut FileBytes, e: &Expr) -> Result<(), AllocError>
        requires { IsOver (view e.now) (length self.now.names.now) }
        ensures { OnOk result (out.new ≡ out.old ++ text_of (in_parentheses (expression_layout self.now.names.now (view e.now)))) }
    {
        out.append(b"(")?;
        self.whole(out, e)?;
        out.append(b")")
    }

    // Behind `not`: in parentheses, unless it is a name or a bit.
    #[cycle(whole)]
    fn primary(&self, out: &mut FileBytes, e: &Expr) -> Result<(), AllocError>
        requires { IsOver (view e.now) (length self.now.names.now) }
        ensures { OnOk result (out.new ≡ out.old ++ text_of (primary (laid self.now.names.now (view e.now)))) }
    {
        match e {
            Expr::Const(_) | Expr::Var(_) => self.whole(out, e),
            Expr::Not(_) | Expr::Pair(_, _, _) | Expr::Choice(_, _, _) => self.enclosed(out, e),
        }
    }

    /// As an operand: in parentheses, where a gate stands in it.
    #[cycle(whole)]
    pub(crate) fn operand(&self, out: &mut FileBytes, e: &Expr) -> Result<(), AllocError>
        requires { IsOver (view e.now) (length self.now.names.now) }
        ensures { OnOk result (out.new ≡ out.old ++ text_of (operand (laid self.now.names.now (view e.now)))) }
    {
        match e {
            Expr::Const(_) | Expr::Var(_) | Expr::Not(_) => self.whole(out, e),
            Expr::Pair(_, _, _) | Expr::Choice(_, _, _) => self.enclosed(out, e),
        }
    }

    // As the first operand of a gate: without parentheses also where the same gate joins its operands.
    #[cycle(whole)]
    fn leading(&self, out: &mut FileBytes, gate: Gate, e: &Expr) -> Result<(), AllocError>
        requires { IsOver (view e.now) (length self.now.names.now) }
        ensures { OnOk result (out.new ≡ out.old ++ text_of (leading gate (laid self.now.names.now (view e.now)))) }
    {
        match e {
            Expr::Pair(inner, _, _) if chains(gate, *inner) => self.whole(out, e),
            Expr::Choice(_, _, _) if chains(gate, Gate::Or) => self.whole(out, e),
            _ => self.operand(out, e),
        }
    }

    // The first operand that stands behind one another with the others under a gate, and the others from the last one on.
    fn operands<'e>(
        &self,
        gate: Gate,
        left: &'e Expr,
        right: &'e Expr,
    ) -> Result<(&'e Expr, Vec<&'e Expr>), AllocError>
        requires left { IsOver (view left.now) (length self.now.names.now) }
        requires right { IsOver (view right.now) (length self.now.names.now) }
        ensures { IfOk result (λ r. AreOperands self.now.names.now gate (view left.now) (view right.now) (view r.0.now) (map (λ e. view e.now) r.1.items)) }
    {
        let mut others = Vec::new(self.alloc);
        others.push(right)?;
        let mut first = left;
        loop {
            match first {
                Expr::Pair(inner, before, last) if chains(gate, *inner) => {
                    others.push(last)?;
                    first = before;
                }
                _ => return Ok((first, others)),
            }
        }
    }

    // Two operands of a gate. Those that are joined by the same gate on the left stand without parentheses, however many.
    #[cycle(whole)]
    fn joined(
        &self,
        out: &mut FileBytes,
        gate: Gate,
        left: &Expr,
        right: &Expr,
    ) -> Result<(), AllocError>
        requires left { IsOver (view left.now) (length self.now.names.now) }
        requires right { IsOver (view right.now) (length self.now.names.now) }
        ensures { OnOk result (out.new ≡ out.old ++ text_of (join gate (laid self.now.names.now (view left.now))
            (laid self.now.names.now (view right.now))).text) }
    {
        let (first, mut others) = self.operands(gate, left, right)?;
        self.leading(out, gate, first)?;
        while let Some(other) = others.pop() {
            gate_word(out, gate)?;
            self.operand(out, other)?;
        }
        Ok(())
    }

    // A choice within an expression, by `and`, `or` and `not`.
    #[cycle(whole)]
    fn choice(
        &self,
        out: &mut FileBytes,
        condition: &Expr,
        first: &Expr,
        second: &Expr,
    ) -> Result<(), AllocError>
        requires condition { IsOver (view condition.now) (length self.now.names.now) }
        requires first { IsOver (view first.now) (length self.now.names.now) }
        requires second { IsOver (view second.now) (length self.now.names.now) }
        ensures { OnOk result (out.new ≡ out.old
            ++ text_of (expression_layout self.now.names.now (choice (view condition.now) (view first.now) (view second.now)))) }
    {
        out.append(b"(")?;
        self.joined(out, Gate::And, condition, first)?;
        out.append(b") or (not ")?;
        self.primary(out, condition)?;
        out.append(b" and ")?;
        self.operand(out, second)?;
        out.append(b")")
    }

    /// Appends a whole expression. Operands that are joined by one gate from the left stand without parentheses, and what stands in
    /// parentheses costs stack.
    #[cycle(whole)]
    pub fn whole(&self, out: &mut FileBytes, e: &Expr) -> Result<(), AllocError>
        requires { IsOver (view e.now) (length self.now.names.now) }
        ensures { OnOk result (out.new ≡ out.old ++ text_of (expression_layout self.now.names.now (view e.now))) }
    {
        match e {
            Expr::Const(true) => out.append(b"'1'"),
            Expr::Const(false) => out.append(b"'0'"),
            Expr::Var(k) => spell_name(self.alloc, out, &self.names[*k as usize]),
            Expr::Not(inner) => {
                out.append(b"not ")?;
                self.primary(out, inner)
            }
            Expr::Pair(gate, left, right) => self.joined(out, *gate, left, right),
            Expr::Choice(condition, first, second) => self.choice(out, condition, first, second),
        }
    }

    /// A whole value: each alternative with its condition, the next one behind `else` on a line of its own.
    pub(crate) fn value(&self, out: &mut FileBytes, e: &Expr) -> Result<(), AllocError>
        requires { IsOver (view e.now) (length self.now.names.now) }
        ensures { OnOk result (out.new ≡ out.old ++ text_of (value_layout self.now.names.now (view e.now))) }
    {
        let mut rest = e;
        while let Expr::Choice(condition, first, second) = rest {
            self.whole(out, first)?;
            out.append(b" when ")?;
            self.whole(out, condition)?;
            out.append(b" else\n    ")?;
            rest = second;
        }
        self.whole(out, rest)
    }
}
