// What is written and printed of a netlist with a scan path.
ghost use Rattle.std.specs.Prelude.{IfOk};
ghost use Rattle.scapin_run.specs.Laws.{IsWritable};
ghost use Rattle.scapin_run.specs.Scapin.{IsWrittenAs};

use net_core::{Netlist, PinTable};
use std::alloc::{AllocError, Global};
use tool_drive::{Product, count_text, file_name};
use vlsi_base::FileName;
use vst_print::{WriteError, write_vst};

/// The netlist's file, NAME.vst, and the number of its instances.
pub(crate) fn product(
    alloc: Global,
    out: &FileName,
    netlist: &Netlist,
    table: &PinTable,
) -> Result<Product, AllocError>
    requires { IsWritable table.now netlist.now }
    ensures { IfOk result (λ p. IsWrittenAs out.now table.now netlist.now p) }
{
    let file = match write_vst(alloc, netlist, table) {
        Ok(file) => file,
        Err(WriteError::Memory) => return Err(AllocError),
        Err(WriteError::BadMap) => unreachable!(),
    };
    let name = file_name(alloc, out, b".vst")?;
    let text = count_text(alloc, b"cells", netlist.nodes().len() as u128)?;
    Ok(Product {
        name,
        file: Some(file),
        text,
    })
}
