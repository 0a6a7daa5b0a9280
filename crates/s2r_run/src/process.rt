// `s2r` by a table of a process.
ghost use Rattle.std.specs.Prelude.{◌≡◌, ◌++◌, ℕ, List, false, true, IfOk, OnOk};
ghost use Rattle.cougar_extract.specs.Extracted.{IsReadyFigure};
ghost use Rattle.tool_drive.specs.Refusals.{MemoryOr};
ghost use Rattle.real_table.specs.Bounds.{IsProcessTable};
ghost use Rattle.real_boxes.specs.Bounds.{AreBoxes};
ghost use Rattle.ap_io.specs.ApText.{IsApText};
ghost use Rattle.cell_lib.specs.Library.{IsLibraryOf};
ghost use Rattle.tool_drive.specs.Table.{IsJudged};
ghost use Rattle.real_table.specs.Process.{is_process};
ghost use Rattle.tool_drive.specs.declared.status.Status.TheVariants as status;
ghost use Rattle.tool_drive.specs.declared.status.Verdict.TheVariants.{Broken, Near};
ghost use Rattle.s2r_run.specs.RectText.{metal_text as text_of_metal};
ghost use Rattle.s2r_run.specs.S2r.{Makes, texts};
ghost use Rattle.s2r_run.specs.Process.{IsProcessProduct, IsProcessTold, near_text as text_of_near, off_grid_text as text_of_off_grid, parted_text as text_of_parted, box_text};

use crate::near::{metal_text, put_metal, rectangle};
use crate::words::S2rCommand;
use ap_io::Figure;
use cell_checks::Library;
use real_boxes::{ProcessError, RealBox, to_process, write_process};
use real_table::{ProcessTable, read_process};
use std::alloc::{AllocError, Global};
use sym_geom::Rect;
use tool_drive::{
    Product, Refusal, Status, Verdict, count_text, file_name, named_fault, refused, unknown_cell,
};
use vlsi_base::{FaultKind, FileBytes, Name, Text};

/// A real layer and a box on it.
fn named_box(alloc: Global, out: &mut FileBytes, real: &Text, rect: &Rect) -> Result<(), AllocError>
    ensures { OnOk result (out.new ≡ out.old ++ box_text real.now rect.now) }
{
    out.append(real.as_bytes())?;
    rectangle(alloc, out, rect)
}

/// A real layer and two boxes on it that are too near.
fn near_text(alloc: Global, real: &Text, a: &Rect, b: &Rect) -> Result<FileBytes, AllocError>
    ensures { IfOk result (λ text. text ≡ text_of_near real.now a.now b.now) }
{
    let mut text = FileBytes::new(Vec::new(alloc));
    named_box(alloc, &mut text, real, a)?;
    rectangle(alloc, &mut text, b)?;
    Ok(text)
}

/// The line of a box that doesn't fit.
fn off_grid_text(alloc: Global, real: &Text, rect: &Rect) -> Result<FileBytes, AllocError>
    ensures { IfOk result (λ text. text ≡ text_of_off_grid real.now rect.now) }
{
    let mut text = FileBytes::from_bytes(alloc, b"s2r: off grid ")?;
    named_box(alloc, &mut text, real, rect)?;
    Ok(text)
}

/// The line of two shapes that would be parted.
fn parted_text(alloc: Global, metal: u8, a: &Rect, b: &Rect) -> Result<FileBytes, AllocError>
    ensures { IfOk result (λ text. text ≡ text_of_parted metal a.now b.now) }
{
    let mut text = FileBytes::from_bytes(alloc, b"s2r: apart ")?;
    put_metal(alloc, &mut text, metal, a, b)?;
    Ok(text)
}

/// How two shapes are told that would be joined.
fn joined(alloc: Global, metal: u8, a: &Rect, b: &Rect) -> Status
    ensures { MemoryOr result (result ≡ status.No (Near (text_of_metal metal a.now b.now))) }
{
    match metal_text(alloc, metal, a, b) {
        Ok(text) => Status::No(Verdict::Near(text)),
        Err(_) => Status::Memory,
    }
}

/// How two shapes are told that would be parted.
fn parted(alloc: Global, metal: u8, a: &Rect, b: &Rect) -> Status
    ensures { MemoryOr result (result ≡ status.No (Broken (text_of_parted metal a.now b.now))) }
{
    match parted_text(alloc, metal, a, b) {
        Ok(text) => Status::No(Verdict::Broken(text)),
        Err(_) => Status::Memory,
    }
}

/// How a box is told that doesn't fit.
fn off_grid(alloc: Global, real: &Text, rect: &Rect) -> Status
    ensures { MemoryOr result (result ≡ status.No (Broken (text_of_off_grid real.now rect.now))) }
{
    match off_grid_text(alloc, real, rect) {
        Ok(text) => Status::No(Verdict::Broken(text)),
        Err(_) => Status::Memory,
    }
}

/// How two boxes are told that are too near.
fn near(alloc: Global, real: &Text, a: &Rect, b: &Rect) -> Status
    ensures { MemoryOr result (result ≡ status.No (Near (text_of_near real.now a.now b.now))) }
{
    match near_text(alloc, real, a, b) {
        Ok(text) => Status::No(Verdict::Near(text)),
        Err(_) => Status::Memory,
    }
}

/// How a refusal is told.
fn process_status(alloc: Global, command: &S2rCommand, error: ProcessError) -> Status
    ensures { MemoryOr result (IsProcessTold command.now error result) }
{
    match error {
        ProcessError::Memory => Status::Memory,
        ProcessError::UnknownCell(model) => unknown_cell(alloc, &command.source, model),
        ProcessError::NotMappable(word) | ProcessError::Lost(word) => named_fault(
            alloc,
            &command.source,
            FaultKind::Unsupported,
            Name::scalar(word),
        ),
        ProcessError::Joined { metal, a, b } => joined(alloc, metal, &a, &b),
        ProcessError::Parted { metal, a, b } => parted(alloc, metal, &a, &b),
        ProcessError::Limit(limit) => Status::Limit(limit),
        ProcessError::OffGrid { real, rect } => off_grid(alloc, &real, &rect),
        ProcessError::Near { real, a, b } => near(alloc, &real, &a, &b),
    }
}

/// What is written and printed of boxes.
fn process_product(
    alloc: Global,
    command: &S2rCommand,
    table: &ProcessTable,
    figure: &Figure,
    boxes: &[RealBox],
) -> Result<Product, AllocError>
    requires table { IsProcessTable table.now }
    requires figure { IsReadyFigure figure.now }
    requires boxes { AreBoxes boxes.now }
    ensures { IfOk result (λ p. IsProcessProduct command.now table.now figure.now boxes.now p) }
{
    let file = write_process(alloc, table, figure, boxes)?;
    let name = file_name(alloc, &command.out, b".cif")?;
    let text = count_text(alloc, b"boxes", boxes.len() as u128)?;
    Ok(Product {
        name,
        file: Some(file),
        text,
    })
}

/// What the layout comes to by a table of a process.
pub(crate) fn made_process(
    alloc: Global,
    command: &S2rCommand,
    library: &Library,
    figure: &Figure,
    table: &[u8],
) -> Result<Product, Refusal>
    requires figure { IsReadyFigure figure.now }
    requires process { is_process table.now ≡ true }
    ensures { (catal source : List ℕ) (cells : List (List ℕ)) → IsLibraryOf false catal cells library.now → IsApText source figure.now
        → IsJudged (Makes command.now (texts source table.now catal cells)) result }
{
    let table = match read_process(alloc, table) {
        Ok(table) => table,
        Err(error) => return Err(Refusal::plain(refused(alloc, &command.table, error))),
    };
    let boxes = match to_process(alloc, figure, library, &table) {
        Ok(boxes) => boxes,
        Err(error) => return Err(Refusal::plain(process_status(alloc, command, error))),
    };
    let product = process_product(alloc, command, &table, figure, boxes.as_slice())?;
    Ok(product)
}
