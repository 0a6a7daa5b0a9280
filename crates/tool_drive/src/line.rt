// The line that a refusal prints.
ghost use Rattle.std.specs.Prelude.{◌≡◌, ◌≤◌, [], ◌∷◌, ◌++◌, OnOk, IfOk, codes};
ghost use Rattle.std.specs.Fmt.{decimal};
ghost use Rattle.tool_drive.specs.Lines.{names_text, source_text, library_text, terminal_text, limit_line, file_text, verdict_text, refusal_text, opening, line_of};
ghost use Rattle.tool_drive.specs.Outside.{IsLine};
ghost use Rattle.vlsi_base.specs.Name.{name_text};

use crate::{FileCause, LibraryFault, Status, Verdict, push_number};
use std::alloc::{AllocError, Global};
use vlsi_base::{FileBytes, FileName, InputFault, Limit, Name, Terminal};
use vlsi_shelf::Sink;

fn name(alloc: Global, out: &mut FileBytes, name: &Name) -> Result<(), AllocError>
    ensures { OnOk result (out.new ≡ out.old ++ name_text name.now) }
{
    let text = name.to_text(alloc)?;
    out.append(text.as_bytes())
}

fn spaced_name(alloc: Global, out: &mut FileBytes, item: &Name) -> Result<(), AllocError>
    ensures { OnOk result (out.new ≡ out.old ++ (codes " " ++ name_text item.now)) }
{
    out.append(b" ")?;
    name(alloc, out, item)
}

fn names(alloc: Global, out: &mut FileBytes, items: &[Name]) -> Result<(), AllocError>
    ensures { OnOk result (out.new ≡ out.old ++ names_text items.now) }
{
    for item in items {
        spaced_name(alloc, out, item)?;
    }
    Ok(())
}

fn fault(alloc: Global, out: &mut FileBytes, fault: &InputFault) -> Result<(), AllocError>
    ensures { OnOk result (out.new ≡ out.old ++ source_text [] fault.now) }
{
    out.append(b":")?;
    push_number(alloc, out, u64::from(fault.line))?;
    out.append(b": ")?;
    out.append(fault.kind.as_str().as_bytes())?;
    names(alloc, out, fault.names.as_slice())
}

fn source(
    alloc: Global,
    out: &mut FileBytes,
    file: &FileName,
    found: &InputFault,
) -> Result<(), AllocError>
    ensures { OnOk result (out.new ≡ out.old ++ source_text file.now found.now) }
{
    out.append(file.as_bytes())?;
    fault(alloc, out, found)
}

fn limit(alloc: Global, out: &mut FileBytes, limit: &Limit) -> Result<(), AllocError>
    ensures { OnOk result (out.new ≡ out.old ++ limit_line limit.now) }
{
    out.append(b"limit: ")?;
    out.append(limit.which.as_str().as_bytes())?;
    out.append(b" ")?;
    push_number(alloc, out, limit.reached)
}

fn verdict(alloc: Global, out: &mut FileBytes, verdict: &Verdict) -> Result<(), AllocError>
    ensures { OnOk result (out.new ≡ out.old ++ verdict_text verdict.now) }
{
    match verdict {
        Verdict::Differs { label, name } => {
            out.append(b"differs ")?;
            out.append(label.as_bytes())?;
            spaced_name(alloc, out, name)
        }
        Verdict::NoBehaviour(cell) => with_name(out, b"no behaviour ", cell.as_bytes()),
        Verdict::Shorted { a, b } => {
            out.append(b"shorted ")?;
            name(alloc, out, a)?;
            spaced_name(alloc, out, b)
        }
        Verdict::Different(item) => {
            out.append(b"different ")?;
            name(alloc, out, item)
        }
        Verdict::Names(item) => {
            out.append(b"names ")?;
            name(alloc, out, item)
        }
        Verdict::Unequal(item) => {
            out.append(b"differs ")?;
            name(alloc, out, item)
        }
        Verdict::Broken(lines) => out.append(lines.as_bytes()),
        Verdict::Near(shapes) => with_name(out, b"near ", shapes.as_bytes()),
    }
}

fn library(alloc: Global, out: &mut FileBytes, fault: &LibraryFault) -> Result<(), AllocError>
    ensures { OnOk result (out.new ≡ out.old ++ library_text fault.now) }
{
    match fault {
        LibraryFault::BadCatal(line) => {
            out.append(b"catal ")?;
            push_number(alloc, out, u64::from(*line))
        }
        LibraryFault::BadCell { cell, cause } => {
            out.append(cell.as_bytes())?;
            out.append(b" ")?;
            push_number(alloc, out, u64::from(*cause))
        }
    }
}

fn terminal(alloc: Global, out: &mut FileBytes, terminal: &Terminal) -> Result<(), AllocError>
    ensures { OnOk result (out.new ≡ out.old ++ terminal_text terminal.now) }
{
    if let Some(instance) = &terminal.instance {
        out.append(instance.as_bytes())?;
        out.append(b".")?;
    }
    name(alloc, out, &terminal.pin)
}

fn budget(
    alloc: Global,
    out: &mut FileBytes,
    equation: &Name,
    reached: u64,
) -> Result<(), AllocError>
    ensures { OnOk result (out.new ≡ out.old ++ (name_text equation.now ++ (codes " " ++ decimal reached))) }
{
    name(alloc, out, equation)?;
    out.append(b" ")?;
    push_number(alloc, out, reached)
}

fn no_path(alloc: Global, out: &mut FileBytes, net: u32, stuck: &Terminal) -> Result<(), AllocError>
    ensures { OnOk result (out.new ≡ out.old ++ (decimal net ++ (codes " " ++ terminal_text stuck.now))) }
{
    push_number(alloc, out, u64::from(net))?;
    out.append(b" ")?;
    terminal(alloc, out, stuck)
}

fn with_name(out: &mut FileBytes, what: &[u8], name: &[u8]) -> Result<(), AllocError>
    ensures { OnOk result (out.new ≡ out.old ++ (what.now ++ name.now)) }
{
    out.append(what)?;
    out.append(name)
}

fn file(out: &mut FileBytes, cause: FileCause, name: &FileName) -> Result<(), AllocError>
    ensures { OnOk result (out.new ≡ out.old ++ file_text cause name.now) }
{
    match cause {
        FileCause::Missing => with_name(out, b"file: missing ", name.as_bytes()),
        FileCause::ReadFault => with_name(out, b"file: read fault ", name.as_bytes()),
        FileCause::WriteFault => with_name(out, b"file: write fault ", name.as_bytes()),
        FileCause::OutFault => Ok(()),
    }
}

fn refusal(alloc: Global, out: &mut FileBytes, status: &Status) -> Result<(), AllocError>
    ensures { OnOk result (out.new ≡ out.old ++ refusal_text status.now) }
{
    match status {
        Status::Accepted | Status::Usage => Ok(()),
        Status::Source { file, fault } => source(alloc, out, file, fault),
        Status::Library(found) => {
            out.append(b"library: ")?;
            library(alloc, out, found)
        }
        Status::NoCover(kind) => {
            out.append(b"no cover: ")?;
            out.append(kind.as_str().as_bytes())
        }
        Status::Budget { equation, reached } => {
            out.append(b"budget: ")?;
            budget(alloc, out, equation, *reached)
        }
        Status::NoPath { net, terminal } => {
            out.append(b"no path: ")?;
            no_path(alloc, out, *net, terminal)
        }
        Status::File { cause, name } => file(out, *cause, name),
        Status::Memory => out.append(b"memory"),
        Status::Limit(over) => limit(alloc, out, over),
        Status::No(found) => verdict(alloc, out, found),
    }
}

// What stands in front of a refusal.
fn opening(alloc: Global, word: &[u8], status: &Status) -> Result<FileBytes, AllocError>
    ensures { IfOk result (λ bytes. bytes ≡ opening word.now status.now) }
{
    if status.says_all() {
        return Ok(FileBytes::from_bytes(alloc, b"")?);
    }
    let mut line = FileBytes::from_bytes(alloc, word)?;
    line.append(b": ")?;
    Ok(line)
}

// The line that a refusal prints.
fn line(alloc: Global, word: &[u8], status: &Status) -> Result<FileBytes, AllocError>
    ensures { IfOk result (λ bytes. bytes ≡ line_of word.now status.now) }
{
    let mut line = opening(alloc, word, status)?;
    refusal(alloc, &mut line, status)?;
    line.append(b"\n")?;
    Ok(line)
}

/// Prints the line of a refusal by one put, behind the tool's word if that is said. Whether that works out doesn't change the answer.
pub fn tell<T: Sink>(alloc: Global, word: &[u8], status: &Status, out: &mut T)
    ensures told { IsLine (T.seen out.old) (T.seen out.new) (line_of word.now status.now) }
    ensures faults { (T.seen out.old).faults ≤ (T.seen out.new).faults }
{
    if let Ok(line) = line(alloc, word, status) {
        let _ = out.put(line.as_bytes());
    }
}
