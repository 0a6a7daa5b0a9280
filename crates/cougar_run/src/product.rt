// What is written and printed of a netlist.
ghost use Rattle.std.specs.Prelude.{◌≡◌, IfOk, OnOk, IfErr, filter, length};
ghost use Rattle.net_right.specs.Writable.{CanBeNamed};
ghost use Rattle.vst_print.specs.Written.{IsWriteRefusal};
ghost use Rattle.cougar_run.specs.Cougar.{IsWritable, IsWrittenAs, is_supply_port as is_supply_of, net_count as count_of, report as report_of};

use cell_checks::Library;
use cell_pins::pin_table;
use net_core::Netlist;
use std::alloc::{AllocError, Global};
use tool_drive::{Product, count_line, file_name};
use vlsi_base::{FileBytes, FileName, Port, is_supply};
use vst_print::{WriteError, write_vst};

fn is_supply_port(port: &Port) -> bool
    ensures { result ≡ is_supply_of port.now }
{
    port.name.bit.is_none() && is_supply(port.name.text.as_bytes())
}

fn count_supplies(ports: &[Port]) -> usize
    ensures { result ≡ length (filter is_supply_of ports.now) }
{
    ports.iter().filter(|port| is_supply_port(port)).count()
}

/// How many classes there are but for those of the supplies.
fn net_count(netlist: &Netlist) -> u64
    ensures { result ≡ count_of netlist.now }
{
    let supplies = count_supplies(netlist.ports());
    u64::saturating_sub(u64::from(netlist.count()), supplies as u64)
}

// How many instances there are, and how many classes without those of the supplies.
fn report(alloc: Global, netlist: &Netlist) -> Result<FileBytes, AllocError>
    ensures { IfOk result (λ text. text ≡ report_of netlist.now) }
{
    let mut text = FileBytes::new(Vec::new(alloc));
    count_line(alloc, &mut text, b"cells", netlist.nodes().len() as u128)?;
    count_line(alloc, &mut text, b"nets", u128::from(net_count(netlist)))?;
    Ok(text)
}

/// The netlist's file, NAME.vst, and what is printed. It is refused where its names can't be written.
pub(crate) fn product(
    alloc: Global,
    out: &FileName,
    netlist: &Netlist,
    library: &Library,
) -> Result<Product, WriteError>
    requires { IsWritable library.now netlist.now }
    ensures written { IfOk result (λ p. IsWrittenAs out.now library.now netlist.now p) }
    ensures named { OnOk result (CanBeNamed netlist.now) }
    ensures refused { IfErr result (λ e. IsWriteRefusal netlist.now e) }
{
    let table = pin_table(alloc, library, true)?;
    let file = write_vst(alloc, netlist, &table)?;
    let name = file_name(alloc, out, b".vst")?;
    let text = report(alloc, netlist)?;
    Ok(Product {
        name,
        file: Some(file),
        text,
    })
}
