// The report on a layout.
ghost use Rattle.std.specs.Prelude.{◌≡◌, ◌≤◌, ◌-◌, ◌++◌, IfOk, OnOk, length, map};
ghost use Rattle.machine_core.specs.View.{register_view};
ghost use Rattle.machine_core.specs.Size.{machine_size as size_of};
ghost use Rattle.tool_drive.specs.declared.size.TheConstants.{MOST_SIZE};
ghost use Rattle.flow_run.specs.View.{origin_view};
ghost use Rattle.flow_run.specs.Report.{source_line as source_line_of, register_line as register_line_of};
ghost use Rattle.flow_run.specs.Report.{register_lines as register_lines_of, held_lines as held_lines_of, report_by};

use crate::source::{Counted, Origin, Source};
use loon_drive::Driven;
use machine_core::{Machine, Register, machine_size};
use net_core::Netlist;
use std::alloc::{AllocError, Global};
use syf_run::code_lines;
use tool_drive::count_line;
use vlsi_base::{FileBytes, Name, Text};

fn source_line(alloc: Global, name: &Text) -> Result<FileBytes, AllocError>
    ensures { IfOk result (λ text. text ≡ source_line_of name.now) }
{
    let mut out = FileBytes::from_bytes(alloc, b"source ")?;
    out.append(name.as_bytes())?;
    out.append(b"\n")?;
    Ok(out)
}

fn register_line(
    alloc: Global,
    out: &mut FileBytes,
    number: u64,
    name: &Name,
) -> Result<(), AllocError>
    ensures { OnOk result (out.new ≡ out.old ++ register_line_of number name.now) }
{
    let digits = number.to_string(alloc)?;
    let text = name.to_text(alloc)?;
    out.append(b"register q")?;
    out.append(digits.as_bytes())?;
    out.append(b" ")?;
    out.append(text.as_bytes())?;
    out.append(b"\n")?;
    Ok(())
}

fn register_lines(
    alloc: Global,
    out: &mut FileBytes,
    registers: &[Register],
) -> Result<(), AllocError>
    ensures { OnOk result (out.new ≡ out.old ++ register_lines_of 0 (map register_view registers.now)) }
{
    for (k, register) in registers.iter().enumerate() {
        register_line(alloc, out, k as u64, &register.name)?;
    }
    Ok(())
}

// Which register an instance holds, or the code of each state of a state machine.
fn held_lines(alloc: Global, out: &mut FileBytes, source: &Source) -> Result<(), AllocError>
    ensures { OnOk result (out.new ≡ out.old ++ held_lines_of (origin_view source.now.origin) source.now.machine) }
{
    match &source.origin {
        Origin::Equations => register_lines(alloc, out, source.machine.registers().as_slice()),
        Origin::States(states, codes) => {
            code_lines(alloc, out, states.states().as_slice(), codes.as_slice())
        }
    }
}

// The source, and its registers or codes.
fn head(alloc: Global, source: &Source) -> Result<FileBytes, AllocError>
    ensures { IfOk result (λ text. text
        ≡ source_line_of source.now.machine.name ++ held_lines_of (origin_view source.now.origin) source.now.machine) }
{
    let mut out = source_line(alloc, source.machine.name())?;
    held_lines(alloc, &mut out, source)?;
    Ok(out)
}

fn size(machine: &Machine) -> u128
    requires { size_of machine.now ≤ MOST_SIZE }
    ensures { result ≡ size_of machine.now }
{
    u128::from(machine_size(machine))
}

fn cells(netlist: &Netlist) -> u128
    ensures { result ≡ length netlist.now.instances }
{
    netlist.nodes().len() as u128
}

// The classes but those of vdd and vss.
fn nets(netlist: &Netlist) -> u128
    ensures { result ≡ netlist.now.count - 2 }
{
    u128::from(netlist.count().saturating_sub(2))
}

/// The report on a layout of the machine with this netlist, whose nets are so long, and which breaks no rule. Memory goes by the text.
pub(crate) fn report(
    alloc: Global,
    counted: &Counted,
    driven: &Driven,
    wire: u128,
) -> Result<FileBytes, AllocError>
    requires { size_of counted.now.source.machine ≤ MOST_SIZE }
    ensures { IfOk result (λ text. text ≡ report_by (origin_view counted.now.source.origin) counted.now.source.machine counted.now.nodes
        (length driven.now.netlist.instances) (driven.now.netlist.count - 2) driven.now.delay wire 0) }
{
    let mut out = head(alloc, &counted.source)?;
    count_line(alloc, &mut out, b"size", size(&counted.source.machine))?;
    count_line(alloc, &mut out, b"nodes", u128::from(counted.nodes))?;
    count_line(alloc, &mut out, b"cells", cells(&driven.netlist))?;
    count_line(alloc, &mut out, b"nets", nets(&driven.netlist))?;
    count_line(alloc, &mut out, b"delay", driven.delay)?;
    count_line(alloc, &mut out, b"length", wire)?;
    count_line(alloc, &mut out, b"breaches", 0)?;
    out.append(b"accepted\n")?;
    Ok(out)
}
