// Machines as data-flow texts.
ghost use Rattle.std.specs.Prelude.{◌≡◌, ◌++◌, ◌<◌, ◌+◌, ◌^◌, [], map, length, IfOk, OnOk};
ghost use Rattle.std.specs.Fmt.{decimal};
ghost use Rattle.std.specs.List.{All};
ghost use Rattle.bool_expr.specs.Expression.{IsOver};
ghost use Rattle.bool_expr.specs.View.{view};
ghost use Rattle.machine_core.specs.View.{equation_view, register_view};
ghost use Rattle.spell_theory.specs.Layout.{text_of};
ghost use Rattle.vlsi_base.specs.Names.{scalar};
ghost use Rattle.vlsi_base.specs.declared.name.Dir.TheVariants.{In};
ghost use Rattle.vst_print.specs.Structure.{signal_layout, signals_layout};
ghost use Rattle.vbe_print.specs.Pieces.{front_text, declared_text, stated_text};
ghost use Rattle.vbe_print.specs.Written.{with_supply_ports, head_layout, equation_layout, equations_layout, condition_layout, rise_layout, block_head_layout, loading_layout, register_layout, blocks_layout, clocked_layout, storage_layout, layout_by, layout};
ghost use Rattle.vbe_print.specs.Writable.{CanBeVbe};

use crate::expressions::{Speller, spell_name};
use crate::names::spelling_of;
use crate::registers::registers;
use bool_expr::Expr;
use machine_core::{Equation, Machine, Register};
use std::alloc::{AllocError, Global};
use vlsi_base::{Dir, FileBytes, Name, Port, Text};
use vst_print::entity;

// A supply as a port.
fn supply(alloc: Global, text: &[u8]) -> Result<Port, AllocError>
    ensures { IfOk result (λ port. port ≡ record { name = scalar text.now; dir = In }) }
{
    Ok(Port {
        name: Name::scalar(Text::from_bytes(alloc, text)?),
        dir: Dir::In,
    })
}

// The ports, and behind them the two supplies.
fn with_supplies(alloc: Global, ports: &[Port]) -> Result<Vec<Port>, AllocError>
    ensures { IfOk result (λ all. all.items ≡ with_supply_ports ports.now) }
{
    let mut all = Vec::with_capacity(alloc, ports.len())?;
    for port in ports {
        all.push(Port {
            name: port.name.copy(alloc)?,
            dir: port.dir,
        })?;
    }
    all.push(supply(alloc, b"vdd")?)?;
    all.push(supply(alloc, b"vss")?)?;
    Ok(all)
}

// What stands between the entity and the declarations.
fn head(out: &mut FileBytes, entity: &Text) -> Result<(), AllocError>
    ensures { OnOk result (out.new ≡ out.old ++ text_of (head_layout entity.now)) }
{
    out.append(b"\narchitecture data_flow of ")?;
    out.append(entity.as_bytes())?;
    out.append(b" is\n")
}

// A signal of one bit.
fn signal(out: &mut FileBytes, text: &Text) -> Result<(), AllocError>
    ensures { OnOk result (out.new ≡ out.old ++ text_of (signal_layout text.now)) }
{
    out.append(b"signal ")?;
    out.append(text.as_bytes())?;
    out.append(b" : bit;\n")
}

// The declarations of inner signals.
fn signals(out: &mut FileBytes, texts: &[Text]) -> Result<(), AllocError>
    ensures { OnOk result (out.new ≡ out.old ++ text_of (signals_layout texts.now)) }
{
    for text in texts {
        signal(out, text)?;
    }
    Ok(())
}

// An equation under this name.
fn equation(
    out: &mut FileBytes,
    speller: &Speller<'_>,
    target: &Name,
    value: &Expr,
) -> Result<(), AllocError>
    requires { IsOver (view value.now) (length speller.now.names.now) }
    ensures { OnOk result (out.new ≡ out.old ++ text_of (equation_layout speller.now.names.now target.now (view value.now))) }
{
    spell_name(speller.alloc, out, target)?;
    out.append(b" <= ")?;
    speller.value(out, value)?;
    out.append(b";\n")
}

// The equations under these names.
fn equations(
    out: &mut FileBytes,
    speller: &Speller<'_>,
    names: &[Name],
    equations: &[Equation],
) -> Result<(), AllocError>
    requires each { length names.now ≡ length equations.now }
    requires over { All (λ e. IsOver (view e.expr) (length speller.now.names.now)) equations.now }
    ensures { OnOk result (out.new ≡ out.old ++ text_of (equations_layout speller.now.names.now names.now (map equation_view equations.now))) }
{
    for place in 0..equations.len() {
        equation(out, speller, &names[place], &equations[place].expr)?;
    }
    Ok(())
}

// What a guard asks beside the clock's rise: nothing where it is always 1.
fn condition(out: &mut FileBytes, speller: &Speller<'_>, enable: &Expr) -> Result<(), AllocError>
    requires { IsOver (view enable.now) (length speller.now.names.now) }
    ensures { OnOk result (out.new ≡ out.old ++ text_of (condition_layout speller.now.names.now (view enable.now))) }
{
    match enable {
        Expr::Const(true) => Ok(()),
        _ => {
            out.append(b" and ")?;
            speller.operand(out, enable)
        }
    }
}

// The clock's rise.
fn rise(out: &mut FileBytes, clock: &[u8]) -> Result<(), AllocError>
    ensures { OnOk result (out.new ≡ out.old ++ text_of (rise_layout clock.now)) }
{
    out.append(b"((")?;
    out.append(clock)?;
    out.append(b" and not ")?;
    out.append(clock)?;
    out.append(b"'stable")
}

// The head of a block. Its guard asks for the clock's rise, and for the condition.
fn begin_block(
    out: &mut FileBytes,
    speller: &Speller<'_>,
    clock: &Name,
    number: usize,
    enable: &Expr,
) -> Result<(), AllocError>
    requires { IsOver (view enable.now) (length speller.now.names.now) }
    ensures { OnOk result (out.new ≡ out.old ++ text_of (block_head_layout speller.now.names.now clock.now number (view enable.now))) }
{
    out.append(b"b")?;
    push_number(speller.alloc, out, number)?;
    out.append(b" : block ")?;
    rise(out, clock.text.as_bytes())?;
    condition(out, speller, enable)?;
    out.append(b") = '1')\nbegin\n")
}

// A number.
fn push_number(alloc: Global, out: &mut FileBytes, number: usize) -> Result<(), AllocError>
    ensures { OnOk result (out.new ≡ out.old ++ decimal number) }
{
    let text = number.to_string(alloc)?;
    out.append(text.as_bytes())
}

// What a register loads.
fn loading(
    out: &mut FileBytes,
    speller: &Speller<'_>,
    register: &Register,
) -> Result<(), AllocError>
    requires { IsOver (view register.now.next) (length speller.now.names.now) }
    ensures { OnOk result (out.new ≡ out.old ++ text_of (loading_layout speller.now.names.now (register_view register.now))) }
{
    out.append(b"  ")?;
    spell_name(speller.alloc, out, &register.name)?;
    out.append(b" <= guarded ")?;
    speller.value(out, &register.next)?;
    out.append(b";\n")
}

// The block of a register.
fn block(
    out: &mut FileBytes,
    speller: &Speller<'_>,
    clock: &Name,
    number: usize,
    register: &Register,
) -> Result<(), AllocError>
    requires next { IsOver (view register.now.next) (length speller.now.names.now) }
    requires enable { IsOver (view register.now.enable) (length speller.now.names.now) }
    ensures { OnOk result (out.new ≡ out.old ++ text_of (register_layout speller.now.names.now clock.now number (register_view register.now))) }
{
    begin_block(out, speller, clock, number, &register.enable)?;
    loading(out, speller, register)?;
    out.append(b"end block;\n")
}

// A block for each register.
fn blocks(
    out: &mut FileBytes,
    speller: &Speller<'_>,
    clock: &Name,
    registers: &[Register],
) -> Result<(), AllocError>
    requires { All (λ r. IsOver (view r.next) (length speller.now.names.now) × IsOver (view r.enable) (length speller.now.names.now)) registers.now }
    ensures { OnOk result (out.new ≡ out.old ++ text_of (blocks_layout speller.now.names.now clock.now 0 (map register_view registers.now))) }
{
    for number in 0..registers.len() {
        block(out, speller, clock, number, &registers[number])?;
    }
    Ok(())
}

// A block without assignments, which names the clock.
fn empty_block(out: &mut FileBytes, speller: &Speller<'_>, clock: &Name) -> Result<(), AllocError>
    ensures { OnOk result (out.new ≡ out.old ++ text_of (clocked_layout speller.now.names.now clock.now [])) }
{
    let always = Expr::Const(true);
    begin_block(out, speller, clock, 0, &always)?;
    out.append(b"end block;\n")
}

// The blocks of a machine with a clock: one for each register; one without assignments, where there is no register.
fn clocked(
    out: &mut FileBytes,
    speller: &Speller<'_>,
    clock: &Name,
    registers: &[Register],
) -> Result<(), AllocError>
    requires { All (λ r. IsOver (view r.next) (length speller.now.names.now) × IsOver (view r.enable) (length speller.now.names.now)) registers.now }
    ensures { OnOk result (out.new ≡ out.old ++ text_of (clocked_layout speller.now.names.now clock.now (map register_view registers.now))) }
{
    if registers.is_empty() {
        empty_block(out, speller, clock)
    } else {
        blocks(out, speller, clock, registers)
    }
}

// The blocks, where there is a clock.
fn storage(out: &mut FileBytes, speller: &Speller<'_>, machine: &Machine) -> Result<(), AllocError>
    requires { length speller.now.names.now ≡ length machine.now.vars }
    ensures { OnOk result (out.new ≡ out.old ++ text_of (storage_layout speller.now.names.now machine.now.clock machine.now.registers)) }
{
    let stored = machine.registers().as_slice();
    match machine.clock() {
        None => Ok(()),
        Some(clock) => clocked(out, speller, clock, stored),
    }
}

// The entity, and what stands between it and the declarations.
fn front(alloc: Global, out: &mut FileBytes, machine: &Machine) -> Result<(), AllocError>
    ensures { OnOk result (out.new ≡ out.old ++ front_text machine.now) }
{
    let ports = with_supplies(alloc, machine.ports().as_slice())?;
    entity(alloc, out, machine.name(), &ports)?;
    head(out, machine.name())
}

// The declarations.
fn declarations(
    alloc: Global,
    out: &mut FileBytes,
    texts: &[Text],
    stored: &[Register],
) -> Result<(), AllocError>
    ensures { OnOk result (out.new ≡ out.old ++ declared_text texts.now (map register_view stored.now)) }
{
    signals(out, texts)?;
    registers(alloc, out, stored)?;
    out.append(b"begin\n")
}

// The statements, where these are the names of the equations.
fn statements(
    out: &mut FileBytes,
    speller: &Speller<'_>,
    names: &[Name],
    machine: &Machine,
) -> Result<(), AllocError>
    requires each { length names.now ≡ length machine.now.equations }
    requires all { length speller.now.names.now ≡ length machine.now.vars }
    ensures { OnOk result (out.new ≡ out.old ++ stated_text speller.now.names.now names.now machine.now) }
{
    equations(out, speller, names, machine.equations().as_slice())?;
    storage(out, speller, machine)?;
    out.append(b"end data_flow;\n")
}

/// Writes a machine as a data-flow text: its entity, with the supplies behind its ports; a signal for each inner equation, named by
/// the stem and a number, from 0 on, without those that make the text of a port or a register; its registers; its equations in their order;
/// and for each register a block that asks for the clock's rise and for the register's enable. A choice is written by `when` and
/// `else` as far as it is the whole value, and by `and`, `or` and `not` within expressions, where its condition stands twice. So the
/// text grows with the machine where choices are whole values, each at most in the last part of another; a choice within the condition
/// of a choice, and that within an operand, doubles what stands there.
///
/// A text can be read again where the stem is a letter in lower case; another stem is written as it is.
///
/// Takes memory for the text and its names, and time for the text and, for each name, the logarithm of their number.
pub fn write_vbe_by(alloc: Global, machine: &Machine, stem: &[u8]) -> Result<FileBytes, AllocError>
    requires names { CanBeVbe machine.now }
    requires few { length machine.now.vars + length machine.now.ports < 2 ^ 32 }
    ensures { IfOk result (λ bytes. bytes ≡ text_of (layout_by stem.now machine.now)) }
{
    let names = spelling_of(alloc, machine, stem)?;
    let speller = Speller {
        alloc,
        names: &names.vars,
    };
    let mut out = FileBytes::new(Vec::new(alloc));
    front(alloc, &mut out, machine)?;
    declarations(
        alloc,
        &mut out,
        &names.signals,
        machine.registers().as_slice(),
    )?;
    statements(&mut out, &speller, &names.vars[names.held..], machine)?;
    Ok(out)
}

/// Writes a machine as `write_vbe_by` does, with the inner signals n0, n1, and so on. Takes the same memory.
pub fn write_vbe(alloc: Global, machine: &Machine) -> Result<FileBytes, AllocError>
    requires names { CanBeVbe machine.now }
    requires few { length machine.now.vars + length machine.now.ports < 2 ^ 32 }
    ensures { IfOk result (λ bytes. bytes ≡ text_of (layout machine.now)) }
{
    write_vbe_by(alloc, machine, b"n")
}
