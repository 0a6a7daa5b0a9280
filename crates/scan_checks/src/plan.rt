// What a scan path is made of.
ghost use Rattle.std.specs.Prelude.{◌≡◌, ◌<◌, ◌^◌, false, length, IfOk, IfErr, OnOk};
ghost use Rattle.cell_checks.specs.Checked.{IsChecked};
ghost use Rattle.net_core.specs.Netlist.{IsNetlist};
ghost use Rattle.scan_theory.specs.Path.{NoneTaken, IsCovered, IsPath, register_names};
ghost use Rattle.scan_checks.specs.Room.{HasRoomForScan};
ghost use Rattle.scan_checks.specs.Registers.{IsScannable};
ghost use Rattle.scan_checks.specs.Refused.{IsScanRefusal, IsCoverRefusal};
ghost use Rattle.scan_checks.specs.Planned.{HasCells, IsPlanOf};

use crate::cells::{Parts, first_of, parts_of};
use crate::error::ScanError;
use crate::names::first_taken;
use crate::order::in_order;
use crate::registers::{Register, registers};
use cell_checks::Library;
use cell_model::Kind;
use net_core::Netlist;
use std::alloc::Global;
use vlsi_base::Text;

/// What a scan path is made of: the registers in the order of the path, and the cells of the gates.
#[derive(Drop)]
pub struct Plan {
    pub registers: Vec<Register>,
    pub parts: Parts,
}

// The cells of the gates.
fn parts_in(alloc: Global, library: &Library) -> Result<Parts, ScanError>
    ensures parts { IfOk result (λ parts. HasCells library.now parts) }
    ensures covered { OnOk result (IsCovered library.now) }
    ensures checked { OnOk result (IsChecked false library.now) }
    ensures refused { IfErr result (λ e. IsCoverRefusal library.now e) }
{
    let cells = library.cells();
    let Some(inverter) = first_of(cells, Kind::Inv) else {
        return Err(ScanError::NoCover(Kind::Inv));
    };
    let Some(nand) = first_of(cells, Kind::Nand2) else {
        return Err(ScanError::NoCover(Kind::Nand2));
    };
    Ok(parts_of(alloc, inverter, nand)?)
}

/// What the scan path along a path is made of. It is refused, in this order: by `Taken` with the first of the names scin, test, scout,
/// s0, s1 and so on that is to be added, but is the text of a port or the name of an instance; by `NoCover` where no usable cell is an
/// inverter, or else none a nand of two inputs; by `Unknown` with the first name of the path that is no register's; by `Twice` with the
/// first that stood before; by `Left` with the first register that the path lacks.
///
/// The netlist must meet what the stages ask, with usable cells of the library, and have fewer than 2^27 instances, ports and pins. Takes
/// memory for the registers and for names; time for each instance once for each cell of the library, and for each name the logarithm of
/// their number.
pub fn make_plan(
    alloc: Global,
    netlist: &Netlist,
    library: &Library,
    path: &[Text],
) -> Result<Plan, ScanError>
    requires scannable { IsScannable library.now netlist.now }
    requires room { HasRoomForScan netlist.now }
    ensures plan { IfOk result (λ p. IsPlanOf library.now netlist.now path.now p) }
    ensures few { OnOk result (length path.now < 2 ^ 27) }
    ensures registers { IfOk result (λ p. length p.registers.items ≡ length path.now) }
    ensures many { OnOk result (length path.now ≡ length (register_names library.now netlist.now)) }
    ensures checked { OnOk result (IsChecked false library.now) }
    ensures sound { OnOk result (IsNetlist netlist.now) }
    ensures free { OnOk result (NoneTaken library.now netlist.now) }
    ensures covered { OnOk result (IsCovered library.now) }
    ensures through { OnOk result (IsPath library.now netlist.now path.now) }
    ensures refused { IfErr result (λ e. IsScanRefusal library.now netlist.now path.now e) }
{
    let registers = registers(alloc, netlist, library)?;
    if let Some(text) = first_taken(alloc, netlist, registers.len())? {
        return Err(ScanError::Taken(text));
    }
    let parts = match parts_in(alloc, library) {
        Ok(parts) => parts,
        Err(error) => return Err(error),
    };
    match in_order(alloc, &registers, path) {
        Ok(registers) => Ok(Plan { registers, parts }),
        Err(error) => Err(error),
    }
}
