// What a cell does, over bits of its own.
ghost use Rattle.std.specs.Prelude.{◌≡◌, ◌≤◌, not, map, filter, length, IfOk};
ghost use Rattle.bool_expr.specs.View.{view};
ghost use Rattle.bool_expr.specs.Expression.{variable};
ghost use Rattle.machine_core.specs.Machine.{is_input, names_of, inputs, outputs};
ghost use Rattle.source_checks.specs.Formula.{place};
ghost use Rattle.net_machine.specs.Body.{load_view, shown_view, body_view, no_body, gate_body, flip_flop_body, machine_body, body_of};

use bool_expr::{Expr, copy};
use cell_model::{Cell, Function, Pin};
use machine_core::{Equation, Machine, Register};
use std::alloc::{AllocError, Global};
use vlsi_base::{Dir, Name, Port};

/// What a bit that is held takes at the clock's rise, and when.
#[derive(Drop)]
pub struct Load {
    pub next: Expr,
    pub enable: Expr,
}

/// An expression over a body's bits, or one of them by its number.
#[derive(Drop)]
pub enum Value {
    Of(Expr),
    Bit(usize),
}

/// An output pin, and what it has the value of.
#[derive(Drop)]
pub struct Shown {
    pub pin: Name,
    pub value: Value,
}

/// What a cell does, over bits of its own: those of the pins that it reads, then those that it holds, then its inner ones.
#[derive(Drop)]
pub struct Body {
    pub reads: Vec<Name>,
    pub loads: Vec<Load>,
    /// What each inner bit has the value of; it reads only bits before it.
    pub inner: Vec<Expr>,
    pub shows: Vec<Shown>,
}

fn input_pins(alloc: Global, pins: &[Pin]) -> Result<Vec<Name>, AllocError>
    ensures { IfOk result (λ names. names.items ≡ names_of (filter (λ p. is_input p.dir) (map (λ p. p.port) pins.now))) }
{
    let mut names = Vec::new(alloc);
    for pin in pins {
        if pin.port.dir == Dir::In {
            names.push(pin.port.name.copy(alloc)?)?;
        }
    }
    Ok(names)
}

/// The output pins, each with a copy of an expression.
fn shown_pins(alloc: Global, pins: &[Pin], expr: &Expr) -> Result<Vec<Shown>, AllocError>
    ensures { IfOk result (λ shows. map shown_view shows.items ≡ map (λ o. record { pin = o; expr = view expr.now })
        (names_of (filter (λ p. not (is_input p.dir)) (map (λ p. p.port) pins.now)))) }
{
    let mut shows = Vec::new(alloc);
    for pin in pins {
        if pin.port.dir == Dir::Out {
            let name = pin.port.name.copy(alloc)?;
            let value = Value::Of(copy(alloc, expr)?);
            shows.push(Shown { pin: name, value })?;
        }
    }
    Ok(shows)
}

fn gate_body(alloc: Global, cell: &Cell, expr: &Expr) -> Result<Body, AllocError>
    ensures { IfOk result (λ b. body_view b ≡ gate_body cell.now (view expr.now)) }
{
    let reads = input_pins(alloc, cell.pins.as_slice())?;
    let shows = shown_pins(alloc, cell.pins.as_slice(), expr)?;
    Ok(Body {
        reads,
        loads: Vec::new(alloc),
        inner: Vec::new(alloc),
        shows,
    })
}

fn flip_flop_body(alloc: Global, cell: &Cell, data: &Name) -> Result<Body, AllocError>
    ensures { IfOk result (λ b. body_view b ≡ flip_flop_body cell.now data.now) }
{
    let mut reads = Vec::new(alloc);
    reads.push(data.copy(alloc)?)?;
    let mut loads = Vec::new(alloc);
    loads.push(Load {
        next: Expr::Var(0),
        enable: Expr::Const(true),
    })?;
    let shows = shown_pins(alloc, cell.pins.as_slice(), &Expr::Var(1))?;
    Ok(Body {
        reads,
        loads,
        inner: Vec::new(alloc),
        shows,
    })
}

fn copied_names(alloc: Global, names: &[Name]) -> Result<Vec<Name>, AllocError>
    ensures { IfOk result (λ made. made.items ≡ names.now) }
{
    let mut made = Vec::new(alloc);
    for name in names {
        made.push(name.copy(alloc)?)?;
    }
    Ok(made)
}

/// The inputs of a machine but the clock.
fn machine_inputs(alloc: Global, machine: &Machine) -> Result<Vec<Name>, AllocError>
    ensures { IfOk result (λ names. names.items ≡ inputs machine.now) }
{
    let others = machine.registers().as_slice().len() + machine.equations().as_slice().len();
    let vars = machine.vars().as_slice();
    copied_names(alloc, &vars[..vars.len() - others])
}

fn register_loads(alloc: Global, registers: &[Register]) -> Result<Vec<Load>, AllocError>
    ensures { IfOk result (λ loads. map load_view loads.items ≡ map (λ r. record { next = view r.next; enable = view r.enable }) registers.now) }
{
    let mut loads = Vec::new(alloc);
    for register in registers {
        let next = copy(alloc, &register.next)?;
        let enable = copy(alloc, &register.enable)?;
        loads.push(Load { next, enable })?;
    }
    Ok(loads)
}

fn inner_bits(alloc: Global, equations: &[Equation]) -> Result<Vec<Expr>, AllocError>
    ensures { IfOk result (λ inner. map view inner.items ≡ map (λ e. view e.expr) equations.now) }
{
    let mut inner = Vec::new(alloc);
    for equation in equations {
        inner.push(copy(alloc, &equation.expr)?)?;
    }
    Ok(inner)
}

/// The place of a name; where it isn't there, their number.
fn place(names: &[Name], name: &Name) -> usize
    ensures place { result ≡ place names.now name.now }
    ensures within { result ≤ length names.now }
{
    for (k, other) in names.iter().enumerate() {
        if other.is_same(name) {
            return k;
        }
    }
    names.len()
}

/// The outputs of a machine, each with its name's variable.
fn machine_outputs(alloc: Global, vars: &[Name], ports: &[Port]) -> Result<Vec<Shown>, AllocError>
    ensures { IfOk result (λ shows. map shown_view shows.items ≡ map (λ o. record { pin = o; expr = variable (place vars.now o) })
        (names_of (filter (λ p. not (is_input p.dir)) ports.now))) }
{
    let mut shows = Vec::new(alloc);
    for port in ports {
        if port.dir == Dir::Out {
            let pin = port.name.copy(alloc)?;
            let value = Value::Bit(place(vars, &port.name));
            shows.push(Shown { pin, value })?;
        }
    }
    Ok(shows)
}

fn machine_body(alloc: Global, machine: &Machine) -> Result<Body, AllocError>
    ensures { IfOk result (λ b. body_view b ≡ machine_body machine.now) }
{
    let reads = machine_inputs(alloc, machine)?;
    let loads = register_loads(alloc, machine.registers().as_slice())?;
    let inner = inner_bits(alloc, machine.equations().as_slice())?;
    let shows = machine_outputs(alloc, machine.vars().as_slice(), machine.ports().as_slice())?;
    Ok(Body {
        reads,
        loads,
        inner,
        shows,
    })
}

/// A body that does nothing. Takes no memory.
pub fn no_body(alloc: Global) -> Body
    ensures { body_view result ≡ no_body }
{
    Body {
        reads: Vec::new(alloc),
        loads: Vec::new(alloc),
        inner: Vec::new(alloc),
        shows: Vec::new(alloc),
    }
}

/// What a cell does; nothing, where it is opaque. Takes memory for its pins and expressions.
pub fn body_of(alloc: Global, cell: &Cell) -> Result<Body, AllocError>
    ensures { IfOk result (λ b. body_view b ≡ body_of cell.now cell.now.function) }
{
    match cell.function.as_enum() {
        Function::Gate(expr) => gate_body(alloc, cell, expr),
        Function::FlipFlop { data, .. } => flip_flop_body(alloc, cell, data),
        Function::Other(machine) => machine_body(alloc, machine),
        Function::Opaque => Ok(no_body(alloc)),
    }
}
