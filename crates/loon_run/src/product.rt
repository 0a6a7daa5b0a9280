// What is written and printed of a netlist.
ghost use Rattle.std.specs.Prelude.{◌≡◌, IfOk};
ghost use Rattle.loon_run.specs.Laws.{IsWritable};
ghost use Rattle.loon_run.specs.Loon.{report as report_of, IsWrittenAs};

use loon_drive::Driven;
use net_core::PinTable;
use std::alloc::{AllocError, Global};
use tool_drive::{Product, count_line, file_name};
use vlsi_base::{FileBytes, FileName};
use vst_print::{WriteError, write_vst};

// How many instances there are, and how long the longest path takes.
fn report(alloc: Global, driven: &Driven) -> Result<FileBytes, AllocError>
    ensures { IfOk result (λ text. text ≡ report_of driven.now.netlist driven.now.delay) }
{
    let mut text = FileBytes::from_bytes(alloc, b"")?;
    count_line(
        alloc,
        &mut text,
        b"cells",
        driven.netlist.nodes().len() as u128,
    )?;
    count_line(alloc, &mut text, b"delay", driven.delay)?;
    Ok(text)
}

/// The netlist's file, NAME.vst, and what is printed.
pub(crate) fn product(
    alloc: Global,
    out: &FileName,
    driven: &Driven,
    table: &PinTable,
) -> Result<Product, AllocError>
    requires { IsWritable table.now driven.now.netlist }
    ensures { IfOk result (λ p. IsWrittenAs out.now table.now driven.now.netlist driven.now.delay p) }
{
    let file = match write_vst(alloc, &driven.netlist, table) {
        Ok(file) => file,
        Err(WriteError::Memory) => return Err(AllocError),
        Err(WriteError::BadMap) => unreachable!(),
    };
    let name = file_name(alloc, out, b".vst")?;
    let text = report(alloc, driven)?;
    Ok(Product {
        name,
        file: Some(file),
        text,
    })
}
