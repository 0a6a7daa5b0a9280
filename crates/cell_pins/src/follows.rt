// On which inputs an output depends at once.
ghost use Rattle.std.specs.Prelude.{◌≡◌, ◌≢◌, ◌↔◌, ◌++◌, ◌∷◌, [], false, length, map, IsTrue, IfOk, OnOk};
ghost use Rattle.std.specs.List.{list_any};
ghost use Rattle.vlsi_base.specs.Names.{scalar};
ghost use Rattle.bool_expr.specs.View.{view};
ghost use Rattle.bool_expr.specs.Expression.{variables, IsOver, bit};
ghost use Rattle.machine_core.specs.Machine.{inputs, is_input};
ghost use Rattle.machine_core.specs.Named.{is_same_name, value_at};
ghost use Rattle.machine_core.specs.Order.{EachReadsBelow};
ghost use Rattle.machine_core.specs.View.{equation_view};
ghost use Rattle.cell_model.specs.View.{function_view};
ghost use Rattle.cell_pins.specs.Follows.{Follows, DependsOn};
ghost use Rattle.cell_pins.specs.Marks.{reads_mark, starts, marked};

use bool_expr::{Expr, support};
use cell_model::Function;
use machine_core::{Equation, Machine, Register};
use std::alloc::{AllocError, Global};
use vlsi_base::{Dir, Name, Port};

/// Whether a variable of an expression is marked.
fn reads_mark(alloc: Global, e: &Expr, marks: &[bool]) -> Result<bool, AllocError>
    requires { IsOver (view e.now) (length marks.now) }
    ensures { IfOk result (λ r. r ≡ reads_mark marks.now (view e.now)) }
{
    let vars = support(alloc, e)?;
    for k in vars.as_slice() {
        if marks[*k as usize] {
            return Ok(true);
        }
    }
    Ok(false)
}

/// Each equation in turn marks its name where it reads a marked one.
fn mark_all(alloc: Global, marks: &mut Vec<bool>, equations: &[Equation]) -> Result<(), AllocError>
    requires { EachReadsBelow (length marks.old.items) (map equation_view equations.now) }
    ensures { OnOk result (marks.new.items ≡ marked marks.old.items (map equation_view equations.now)) }
{
    for equation in equations {
        let mark = reads_mark(alloc, &equation.expr, marks)?;
        marks.push(mark)?;
    }
    Ok(())
}

/// How many inputs there are beside the clock.
fn input_count(machine: &Machine) -> usize
    ensures { result ≡ length (inputs machine.now) }
{
    let others = machine.registers().as_slice().len() + machine.equations().as_slice().len();
    machine.vars().as_slice().len() - others
}

fn is_same(a: &Name, b: &Name) -> bool
    ensures { result ≡ is_same_name a.now b.now }
{
    a.is_same(b)
}

fn marks_of(alloc: Global, names: &[Name], input: &Name) -> Result<Vec<bool>, AllocError>
    ensures { IfOk result (λ marks. marks.items ≡ map (λ name. is_same_name name input.now) names.now) }
{
    let mut marks = Vec::new(alloc);
    for name in names {
        marks.push(is_same(name, input))?;
    }
    Ok(marks)
}

fn push_unmarked(marks: &mut Vec<bool>, registers: &[Register]) -> Result<(), AllocError>
    ensures { OnOk result (marks.new.items ≡ marks.old.items ++ map (λ r. false) registers.now) }
{
    for _ in registers {
        marks.push(false)?;
    }
    Ok(())
}

/// The mark of the input itself among the inputs, and none for the registers.
fn starts(alloc: Global, machine: &Machine, input: &Name) -> Result<Vec<bool>, AllocError>
    ensures { IfOk result (λ marks. marks.items ≡ starts machine.now input.now) }
{
    let count = input_count(machine);
    let mut marks = marks_of(alloc, &machine.vars().as_slice()[..count], input)?;
    push_unmarked(&mut marks, machine.registers().as_slice())?;
    Ok(marks)
}

/// The bit that stands beside a name, and 0 where it isn't among them.
fn value_at(names: &[Name], bits: &[bool], name: &Name) -> bool
    requires { length bits.now ≡ length names.now }
    ensures { result ≡ value_at names.now bits.now name.now }
{
    for (k, other) in names.iter().enumerate() {
        if other.is_same(name) {
            return bits[k];
        }
    }
    false
}

/// Whether a name of a machine depends at once on an input. Each equation is looked at once.
fn follows(alloc: Global, machine: &Machine, input: &Name, name: &Name) -> Result<bool, AllocError>
    ensures { IfOk result (λ r. IsTrue r ↔ Follows machine.now input.now name.now) }
{
    let mut marks = starts(alloc, machine, input)?;
    mark_all(alloc, &mut marks, machine.equations().as_slice())?;
    Ok(value_at(machine.vars().as_slice(), &marks, name))
}

/// Whether a name is this text without a bit. Takes no memory.
pub fn is_scalar(name: &Name, text: &[u8]) -> bool
    ensures { IsTrue result ↔ (name.now ≡ scalar text.now) }
{
    name.bit.is_none() && name.text.as_bytes() == text
}

/// Whether a pin is an output that depends at once on another, an input. Takes memory for a bit for each name of a machine.
pub(crate) fn depends_on(
    alloc: Global,
    function: &Function,
    output: &Port,
    input: &Port,
) -> Result<bool, AllocError>
    ensures { IfOk result (λ r. IsTrue r ↔ DependsOn (function_view function.now) output.now input.now) }
{
    if output.dir == Dir::In || input.dir == Dir::Out {
        return Ok(false);
    }
    match function {
        Function::Gate(_) => {
            Ok(!is_scalar(&input.name, b"vdd") && !is_scalar(&input.name, b"vss"))
        }
        Function::FlipFlop { .. } => Ok(false),
        Function::Other(machine) => follows(alloc, machine, &input.name, &output.name),
        Function::Opaque => Ok(false),
    }
}
