// The reader: one pass over the lines.
ghost use Rattle.std.specs.Prelude.{◌≡◌, ◌<◌, ◌+◌, ◌^◌, [], IfOk, IfErr, OnOk, IsTrue, map, length};
ghost use Rattle.std.specs.List.{list_all};
ghost use Rattle.vlsi_base.specs.declared.fault.ReadError.TheVariants as errors;
ghost use Rattle.vlsi_base.specs.Lines.{without_return};
ghost use Rattle.ap_io.specs.ApText.{IsApText, AreItems};
ghost use Rattle.ap_io.specs.Stages.{IsBoxRead, IsHeadRead, IsVersionRead, IsDrawing, IsFigureRead};
ghost use Rattle.ap_io.specs.Fields.{at, label_of};
ghost use Rattle.ap_io.specs.Words.{scale_of};
ghost use Rattle.ap_io.specs.LineFaults.{is_blank_line, name_line_fault, fields_behind};
ghost use Rattle.ap_io.specs.Refusal.{IsApRefusal, IsRefusal, fault_on, limit_on, refusal_on, end_refusal, items_refusal, box_refusal, head_refusal, first_refusal};

use crate::body::Body;
use crate::lines::{box_line_fault, fields_behind, is_end, name_line_fault, version_fault};
use crate::names::{is_blank_line, label};
use crate::words::scale_of;
use crate::{Figure, LineFault, Scale, items};
use std::alloc::{AllocError, Global};
use sym_geom::{Items, Rect};
use vlsi_base::{
    FaultKind, InputFault, Limit, LimitKind, Lines, MOST_NETLIST_BYTES, Name, Names, ReadError,
    without_return,
};

/// A fault of this kind on a line. Takes no memory.
fn fault_on(alloc: Global, line: u32, kind: FaultKind) -> ReadError
    ensures { result ≡ fault_on line kind }
{
    ReadError::Input(InputFault {
        line,
        kind,
        names: Names::new(Vec::new(alloc)),
    })
}

/// A limit that a line exceeds. The last line, which isn't EOF, lacks its end first.
fn limit_on(alloc: Global, line: u32, rest: &Lines, limit: Limit) -> ReadError
    ensures { result ≡ limit_on line (map without_return rest.now) (errors.Limit limit) }
{
    if rest.is_empty() {
        fault_on(alloc, line, FaultKind::NoEnd)
    } else {
        ReadError::Limit(limit)
    }
}

/// The refusal of a line with a fault, behind which these lines stand.
fn refusal_on(alloc: Global, line: u32, rest: &Lines, fault: LineFault) -> ReadError
    ensures { result ≡ refusal_on line (map without_return rest.now) fault }
{
    match fault {
        LineFault::BadLine => fault_on(alloc, line, FaultKind::BadLine),
        LineFault::BadLayer => fault_on(alloc, line, FaultKind::BadLayer),
        LineFault::BadTransform => fault_on(alloc, line, FaultKind::BadTransform),
        LineFault::LongName(reached) => limit_on(
            alloc,
            line,
            rest,
            Limit {
                which: LimitKind::Ident,
                reached,
            },
        ),
        LineFault::FarCoordinate(reached) => limit_on(
            alloc,
            line,
            rest,
            Limit {
                which: LimitKind::Coordinate,
                reached,
            },
        ),
    }
}

/// Reads the lines behind EOF, which are blank. Takes no memory.
fn end(alloc: Global, lines: &mut Lines, before: u32) -> Result<(), ReadError>
    requires { before + length lines.old < 2 ^ 32 }
    ensures read { OnOk result (IsTrue (list_all is_blank_line (map without_return lines.old))) }
    ensures none { OnOk result (end_refusal before (map without_return lines.old) ≡ None) }
    ensures refused { IfErr result (λ e. end_refusal before (map without_return lines.old) ≡ Some e) }
{
    let mut before = before;
    while let Some(line) = lines.next_line() {
        before += 1;
        if !is_blank_line(without_return(line)) {
            return Err(fault_on(alloc, before, FaultKind::AfterEnd));
        }
    }
    Ok(())
}

/// Reads the lines behind the first three.
fn items(alloc: Global, scale: Scale, lines: &mut Lines, before: u32) -> Result<Items, ReadError>
    requires { before + length lines.old < 2 ^ 32 }
    ensures read { IfOk result (λ items. AreItems scale [] (map without_return lines.old) items) }
    ensures none { OnOk result (items_refusal scale before [] (map without_return lines.old) ≡ None) }
    ensures refused { IfErr result (λ e. IsRefusal e (items_refusal scale before [] (map without_return lines.old))) }
{
    let mut body = Body::new(alloc);
    let mut before = before;
    while let Some(line) = lines.next_line() {
        let line = without_return(line);
        before += 1;
        if is_end(line) {
            end(alloc, lines, before)?;
            return Ok(body.into_items());
        }
        if let Some(fault) = body.take(alloc, scale, line)? {
            return Err(refusal_on(alloc, before, lines, fault));
        }
    }
    Err(fault_on(alloc, before, FaultKind::NoEnd))
}

/// Reads the third line.
fn bounds(alloc: Global, scale: Scale, lines: &mut Lines) -> Result<Rect, ReadError>
    ensures read { IfOk result (λ bounds. IsBoxRead scale lines.old lines.new bounds) }
    ensures refused { IfErr result (λ e. box_refusal (Some scale) (map without_return lines.old) ≡ Some e) }
{
    let Some(line) = lines.next_line() else {
        return Err(fault_on(alloc, 2, FaultKind::NoEnd));
    };
    let line = without_return(line);
    match box_line_fault(scale, line) {
        Some(fault) => Err(refusal_on(alloc, 3, lines, fault)),
        None => Ok(items::bounds(scale, &fields_behind(line))),
    }
}

/// The name of a figure and its scale, on a second line without a fault.
fn name_and_scale(alloc: Global, line: &[u8]) -> Result<(Option<Name>, Scale), AllocError>
    requires { name_line_fault line.now ≡ None }
    ensures name { IfOk result (λ read. read.0 ≡ label_of (at (fields_behind line.now) 0)) }
    ensures scale { IfOk result (λ read. scale_of (at (fields_behind line.now) 3) ≡ Some read.1) }
{
    let fields = fields_behind(line);
    let scale = scale_of(fields.at(3)).unwrap();
    let name = label(alloc, fields.at(0))?;
    Ok((name, scale))
}

/// Reads the second line.
fn head(alloc: Global, lines: &mut Lines) -> Result<(Option<Name>, Scale), ReadError>
    ensures read { IfOk result (λ read. IsHeadRead lines.old lines.new read.0 read.1) }
    ensures refused { IfErr result (λ e. IsRefusal e (head_refusal (map without_return lines.old))) }
{
    let Some(line) = lines.next_line() else {
        return Err(fault_on(alloc, 1, FaultKind::NoEnd));
    };
    let line = without_return(line);
    if let Some(fault) = name_line_fault(line) {
        return Err(refusal_on(alloc, 2, lines, fault));
    }
    let read = name_and_scale(alloc, line)?;
    Ok(read)
}

/// Reads the first line.
#[tactic(auto, unfolding(crate::specs::Refusal::first_refusal))]
fn version(alloc: Global, lines: &mut Lines) -> Result<(), ReadError>
    ensures read { OnOk result (IsVersionRead lines.old lines.new) }
    ensures refused { IfErr result (λ e. first_refusal (map without_return lines.old) ≡ Some e) }
{
    let Some(line) = lines.next_line() else {
        return Err(fault_on(alloc, 1, FaultKind::NoEnd));
    };
    let line = without_return(line);
    match version_fault(line) {
        Some(fault) => Err(refusal_on(alloc, 1, lines, fault)),
        None => Ok(()),
    }
}

/// Reads the lines from the third on.
fn drawing(alloc: Global, scale: Scale, lines: &mut Lines) -> Result<(Rect, Items), ReadError>
    requires { length lines.old < 2 ^ 31 }
    ensures read { IfOk result (λ read. IsDrawing scale (map without_return lines.old) read.0 read.1) }
    ensures none { OnOk result (box_refusal (Some scale) (map without_return lines.old) ≡ None) }
    ensures refused { IfErr result (λ e. IsRefusal e (box_refusal (Some scale) (map without_return lines.old))) }
{
    let bounds = bounds(alloc, scale, lines)?;
    let items = items(alloc, scale, lines, 3)?;
    Ok((bounds, items))
}

/// Reads the lines from the second on.
fn figure(alloc: Global, lines: &mut Lines) -> Result<Figure, ReadError>
    requires { length lines.old < 2 ^ 31 }
    ensures read { IfOk result (λ f. IsFigureRead (map without_return lines.old) f) }
    ensures none { OnOk result (head_refusal (map without_return lines.old) ≡ None) }
    ensures refused { IfErr result (λ e. IsRefusal e (head_refusal (map without_return lines.old))) }
{
    let (name, scale) = head(alloc, lines)?;
    let (bounds, items) = drawing(alloc, scale, lines)?;
    Ok(Figure {
        name,
        bounds,
        items,
    })
}

/// Reads an ap file: the figure of its lines, at scale 100 and with names in lower case.
///
/// It is refused where it has more than 268,435,456 bytes (`Limit` of `File` with one more reached), and else for the first
/// line that has a fault; on one line they come in this order: `BadLine`, `BadLayer`, `BadTransform`, `NoEnd`, `AfterEnd`,
/// `Limit` of `Ident`, `Limit` of `Coordinate`. One pass over the bytes; memory for the figure and for the names of its
/// instances once more.
pub fn read_ap(alloc: Global, bytes: &[u8]) -> Result<Figure, ReadError>
    ensures accepted { IfOk result (λ f. IsApText bytes.now f) }
    ensures refused { IfErr result (λ e. IsApRefusal bytes.now e) }
{
    if bytes.len() > MOST_NETLIST_BYTES {
        return Err(ReadError::Limit(Limit {
            which: LimitKind::File,
            reached: MOST_NETLIST_BYTES as u64 + 1,
        }));
    }
    let mut lines = Lines::new(bytes);
    version(alloc, &mut lines)?;
    figure(alloc, &mut lines)
}
