// The machine of a state machine.
ghost use Rattle.std.specs.Prelude.{◌≡◌, ◌<◌, ◌^◌, ◌+◌, ◌-◌, ◌++◌, false, length, map, All, IfOk};
ghost use Rattle.bool_expr.specs.Expression.{constant};
ghost use Rattle.bool_expr.specs.View.{view};
ghost use Rattle.machine_core.specs.Checked.{IsChecked, AreInOrder};
ghost use Rattle.machine_core.specs.Machine.{names_of};
ghost use Rattle.machine_core.specs.View.{equation_view, register_view};
ghost use Rattle.fsm_machine.specs.Codes.{AreCodes};
ghost use Rattle.fsm_machine.specs.Signals.{signals};
ghost use Rattle.fsm_machine.specs.Sound.{IsSound};
ghost use Rattle.fsm_machine.specs.MachineOf.{up, named};
ghost use Rattle.fsm_code.specs.Over.{IsBodyOver, numbered_body};
ghost use Rattle.fsm_code.specs.Sought.{given_at, count_of, AreInTheirOrder};
ghost use Rattle.fsm_code.specs.View.{body_view};
ghost use Rattle.syf_machine.specs.Pieces.{equated, equations_from, machine_with, output_of, register_of, registers_by, registered, values_by};
ghost use Rattle.syf_machine.specs.Named.{HasFewSignals, IsMachineOf, names_for};
ghost use Rattle.syf_machine.specs.Meaning.{DoesAs};

use crate::inner::inner_expressions;
use crate::law::machine_does_as;
use crate::names::{copied, inner_names, inputs, outputs, port_numbers, register_text};
use bool_expr::Expr;
use fsm_code::{Codes, Place, Sought, Statements, Targets};
use fsm_core::StateMachine;
use fsm_machine::machine_is_ordered;
use machine_core::{Equation, Machine, Register};
use std::alloc::{AllocError, Global};
use text_names::texts_are_free;
use vlsi_base::{Listed, Name, Port, Text};

// The statements of a state machine, what stands for their variables, and the numbers of the first register and of their first
// signal.
#[derive(Clone, Copy)]
struct Body<'a> {
    alloc: Global,
    statements: &'a Statements,
    numbers: &'a [u32],
    base: u32,
    first: u32,
}

impl Body<'_> {
    // What the statements leave of so many targets, which are 0 before them.
    fn values(&self, targets: Targets<'_>, count: usize) -> Result<Vec<Expr>, AllocError>
        requires order { AreInTheirOrder targets }
        requires count { count ≡ count_of targets }
        requires over { IsBodyOver (length self.now.numbers.now) (body_view self.now.statements.now) }
        requires room { self.now.first + signals (body_view self.now.statements.now) < 2 ^ 32 }
        ensures { IfOk result (λ made. map view made.items ≡ values_by (given_at targets.entry) self.now.first
            (numbered_body self.now.numbers.now (body_view self.now.statements.now)) count) }
    {
        let sought = Sought {
            alloc: self.alloc,
            targets,
            numbers: self.numbers,
        };
        let place = Place {
            path: None,
            next: self.first,
        };
        let mut values = zeros(self.alloc, count)?;
        sought.run(place, self.statements, &mut values)?;
        Ok(values)
    }

    // An equation for each output.
    fn outputs(&self, names: &[Name]) -> Result<Vec<Equation>, AllocError>
        requires order { AreInOrder names.now }
        requires over { IsBodyOver (length self.now.numbers.now) (body_view self.now.statements.now) }
        requires room { self.now.first + signals (body_view self.now.statements.now) < 2 ^ 32 }
        ensures { IfOk result (λ made. map equation_view made.items
            ≡ map (output_of self.now.first (numbered_body self.now.numbers.now (body_view self.now.statements.now))) names.now) }
    {
        let values = self.values(Targets::Outputs(names), names.len())?;
        let made = equations(self.alloc, names, values)?;
        Ok(made)
    }

    // An equation for each signal inside, and for each output.
    fn equations(&self, ports: &[Port], codes: &Codes) -> Result<Vec<Equation>, AllocError>
        requires ports { AreInOrder (names_of ports.now) }
        requires codes { AreCodes (length codes.now.codes) codes.now }
        requires over { IsBodyOver (length self.now.numbers.now) (body_view self.now.statements.now) }
        requires base { self.now.first ≡ self.now.base + codes.now.width + length codes.now.codes }
        requires room { self.now.first + signals (body_view self.now.statements.now) + length ports.now < 2 ^ 32 }
        requires sound { IsSound (up 0 (length codes.now.codes)) (body_view self.now.statements.now) }
        ensures { IfOk result (λ equations. map equation_view equations.items ≡ equations_from codes.now self.now.base ports.now
            (numbered_body self.now.numbers.now (body_view self.now.statements.now))) }
    {
        let made = inner_expressions(self.alloc, codes, self.base, self.numbers, self.statements)?;
        let mut equations = inner_equations(self.alloc, ports, made)?;
        let mut outputs = self.outputs(&outputs(self.alloc, ports)?)?;
        equations.append(&mut outputs)?;
        Ok(equations)
    }

    // The registers: bit k takes bit k of the next code in each cycle.
    fn registers(&self, text: &Text, codes: &Codes) -> Result<Vec<Register>, AllocError>
        requires over { IsBodyOver (length self.now.numbers.now) (body_view self.now.statements.now) }
        requires room { self.now.first + signals (body_view self.now.statements.now) < 2 ^ 32 }
        ensures { IfOk result (λ registers. map register_view registers.items ≡ map (register_of codes.now self.now.first
            (numbered_body self.now.numbers.now (body_view self.now.statements.now)) text.now) (up 0 codes.now.width)) }
    {
        let values = self.values(Targets::Code(codes), codes.width() as usize)?;
        let made = registers(self.alloc, text, values)?;
        Ok(made)
    }
}

// A 0 for each of so many targets.
fn zeros(alloc: Global, count: usize) -> Result<Vec<Expr>, AllocError>
    ensures count { IfOk result (λ made. length made.items ≡ count) }
    ensures zeros { IfOk result (λ made. All (λ e. view e ≡ constant false) made.items) }
{
    let mut made = Vec::with_capacity(alloc, count)?;
    for _ in 0..count {
        made.push(Expr::Const(false))?;
    }
    Ok(made)
}

// A register for each bit of the next code.
fn registers(alloc: Global, text: &Text, values: Vec<Expr>) -> Result<Vec<Register>, AllocError>
    requires { length values.items < 2 ^ 32 }
    ensures { IfOk result (λ registers. map register_view registers.items ≡ registers_by text.now 0 (map view values.items)) }
{
    let mut registers = Vec::new(alloc);
    for next in values {
        let name = Name {
            text: text.copy(alloc)?,
            bit: Some(registers.len() as u32),
        };
        registers.push(Register {
            name,
            next,
            enable: Expr::Const(true),
        })?;
    }
    Ok(registers)
}

// Names and expressions, one beside the other.
fn equations(alloc: Global, names: &[Name], made: Vec<Expr>) -> Result<Vec<Equation>, AllocError>
    requires { length names.now ≡ length made.items }
    ensures { IfOk result (λ equations. map equation_view equations.items ≡ named names.now (map view made.items)) }
{
    let mut equations = Vec::new(alloc);
    for expr in made {
        let name = names[equations.len()].copy(alloc)?;
        equations.push(Equation { name, expr })?;
    }
    Ok(equations)
}

// An equation for each signal inside.
fn inner_equations(
    alloc: Global,
    ports: &[Port],
    made: Vec<Expr>,
) -> Result<Vec<Equation>, AllocError>
    requires { length made.items + length ports.now < 2 ^ 63 }
    ensures { IfOk result (λ equations. map equation_view equations.items
        ≡ named (names_for ports.now (length made.items)) (map view made.items)) }
{
    texts_are_free();
    let names = inner_names(alloc, ports, made.len())?;
    equations(alloc, &names, made)
}

// The names of these registers, behind others.
fn with_registers(
    alloc: Global,
    names: Vec<Name>,
    registers: &[Register],
) -> Result<Vec<Name>, AllocError>
    ensures { IfOk result (λ all. all.items ≡ names.items ++ registered (map register_view registers.now)) }
{
    let mut all = names;
    for register in registers {
        all.push(register.name.copy(alloc)?)?;
    }
    Ok(all)
}

// The names of these equations, behind others.
fn with_equations(
    alloc: Global,
    names: Vec<Name>,
    equations: &[Equation],
) -> Result<Vec<Name>, AllocError>
    ensures { IfOk result (λ all. all.items ≡ names.items ++ equated (map equation_view equations.now)) }
{
    let mut all = names;
    for equation in equations {
        all.push(equation.name.copy(alloc)?)?;
    }
    Ok(all)
}

// The machine of a state machine with these inputs, equations and registers.
fn machine_with(
    alloc: Global,
    machine: &StateMachine,
    inputs: Vec<Name>,
    equations: Vec<Equation>,
    registers: Vec<Register>,
) -> Result<Machine, AllocError>
    requires { IsChecked (machine_with machine.now inputs.items (map equation_view equations.items) (map register_view registers.items)) }
    ensures { IfOk result (λ m. m ≡ machine_with machine.now inputs.items (map equation_view equations.items) (map register_view registers.items)) }
{
    let held = with_registers(alloc, inputs, &registers)?;
    let vars = with_equations(alloc, held, &equations)?;
    let ports = copied(alloc, machine.ports().as_slice())?;
    let clock = machine.clock().copy(alloc)?;
    Ok(Machine::new(
        machine.name().copy(alloc)?,
        Listed::new(ports),
        Some(clock),
        Listed::new(vars),
        Listed::new(equations),
        Listed::new(registers),
    ))
}

/// The machine of a state machine by codes of its states. Its registers hold the code, bit k of which is bit k of `st`, or of the
/// first of st0, st1, and so on where ports have that name. Its equations are, for each state, whether it is the one that is held; for
/// each condition of an `if` its value, and for each part and branch whether it is taken; and for each output what the statements
/// leave of it. Takes memory for them, and time for the statements and for each bit of the code where they give the next state.
pub fn machine_of(
    alloc: Global,
    machine: &StateMachine,
    codes: &Codes,
) -> Result<Machine, AllocError>
    requires codes { AreCodes (length machine.now.states) codes.now }
    requires few { HasFewSignals machine.now codes.now }
    ensures made { IfOk result (λ m. IsMachineOf machine.now codes.now m) }
    ensures does { IfOk result (λ m. DoesAs machine.now codes.now m) }
    ensures few { IfOk result (λ m. length m.vars + length m.ports < 2 ^ 32 - 2 ^ 16) }
{
    machine_is_ordered();
    texts_are_free();
    machine_does_as();
    let ports = machine.ports().as_slice();
    let inputs = inputs(alloc, ports, machine.clock())?;
    let numbers = port_numbers(alloc, ports, machine.clock())?;
    let base = inputs.len() as u32;
    let body = Body {
        alloc,
        statements: machine.body(),
        numbers: &numbers,
        base,
        first: base + codes.width() + codes.as_slice().len() as u32,
    };
    let equations = body.equations(ports, codes)?;
    let registers = body.registers(&register_text(alloc, ports)?, codes)?;
    let made = machine_with(alloc, machine, inputs, equations, registers)?;
    Ok(made)
}
