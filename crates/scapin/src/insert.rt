// A scan path put into a netlist.
ghost use Rattle.std.specs.Prelude.{◌≡◌, ◌<◌, ◌^◌, ◌++◌, All, List, map, length, IfOk, IfErr, OnOk};
ghost use Rattle.net_core.specs.Frame.{instance_of};
ghost use Rattle.net_core.specs.Netlist.{IsNetlist};
ghost use Rattle.scan_build.specs.Sketched.{instance_by};
ghost use Rattle.scan_theory.specs.Scan.{IsScanned};
ghost use Rattle.scan_checks.specs.Room.{HasRoomForScan};
ghost use Rattle.scan_checks.specs.Registers.{IsScannable};
ghost use Rattle.scan_checks.specs.Refused.{IsScanRefusal};
ghost use Rattle.scan_checks.specs.Planned.{IsPlanOf};
ghost use Rattle.scapin.specs.Gates.{number_of};
ghost use Rattle.scapin.specs.Classes.{part_for};
ghost use Rattle.scapin.specs.Inserted.{gate_entry, IsSketchOf, IsAble, StillMeets, IsScanPath};

use crate::classes::{all_classes, part_for};
use crate::gates::{Gate, gates};
use crate::ports::scan_ports;
use cell_checks::Library;
use net_core::{Netlist, Node};
use scan_build::{Entry, Sketch, build};
use scan_checks::{Part, Parts, Plan, ScanError, gate_name, make_plan};
use scan_theory::{scanned_meets, scanned_scans};
use std::alloc::{AllocError, Global};
use vlsi_base::{Name, Names, Text};

fn copied_names(alloc: Global, names: &[Name]) -> Result<Vec<Name>, AllocError>
    ensures { IfOk result (λ copies. copies.items ≡ names.now) }
{
    let mut copies = Vec::new(alloc);
    for name in names {
        copies.push(name.copy(alloc)?)?;
    }
    Ok(copies)
}

fn entry(alloc: Global, name: Text, model: &Text, pins: &[Name]) -> Result<Entry, AllocError>
    ensures { IfOk result (λ e. e ≡ record { name = name; model = model.now; pins = pins.now }) }
{
    Ok(Entry {
        name,
        model: model.copy(alloc)?,
        pins: Names::new(copied_names(alloc, pins)?),
    })
}

// Puts the instances of a netlist behind the others.
fn push_nodes(
    alloc: Global,
    entries: &mut Vec<Entry>,
    models: &[Text],
    nodes: &[Node],
) -> Result<(), AllocError>
    requires { All (λ i. i.model < length models.now) nodes.now }
    ensures { OnOk result (map instance_by entries.new.items ≡ map instance_by entries.old.items ++ map (instance_of models.now) nodes.now) }
{
    for node in nodes {
        let name = node.name.copy(alloc)?;
        let pins = node.pins.as_slice();
        entries.push(entry(alloc, name, &models[node.model], pins)?)?;
    }
    Ok(())
}

// A gate with the pins of its cell.
fn gate_entry(alloc: Global, part: &Part, gate: Gate) -> Result<Entry, AllocError>
    requires { number_of gate < 2 ^ 40 }
    ensures { IfOk result (λ e. e ≡ gate_entry part.now gate) }
{
    let name = gate_name(alloc, gate.number() as u64)?;
    entry(alloc, name, &part.model, part.pins.as_slice())
}

// Puts gates behind the others.
fn push_gates(
    alloc: Global,
    entries: &mut Vec<Entry>,
    parts: &Parts,
    gates: &[Gate],
) -> Result<(), AllocError>
    requires { All (λ g. number_of g < 2 ^ 40) gates.now }
    ensures { OnOk result (entries.new.items ≡ entries.old.items ++ map (λ g. gate_entry (part_for parts.now g) g) gates.now) }
{
    for gate in gates {
        entries.push(gate_entry(alloc, part_for(parts, *gate), *gate)?)?;
    }
    Ok(())
}

// The instances of a netlist, and behind them gates.
fn entries(
    alloc: Global,
    netlist: &Netlist,
    parts: &Parts,
    gates: &[Gate],
) -> Result<Vec<Entry>, AllocError>
    requires { All (λ g. number_of g < 2 ^ 40) gates.now }
    ensures { IfOk result (λ entries. map instance_by entries.items
        ≡ netlist.now.instances ++ map instance_by (map (λ g. gate_entry (part_for parts.now g) g) gates.now)) }
{
    let mut entries = Vec::new(alloc);
    push_nodes(alloc, &mut entries, netlist.models(), netlist.nodes())?;
    push_gates(alloc, &mut entries, parts, gates)?;
    Ok(entries)
}

// The parts of the netlist with a scan path.
fn sketch(alloc: Global, netlist: &Netlist, plan: &Plan) -> Result<Sketch, AllocError>
    requires few { length plan.now.registers.items < 2 ^ 32 }
    requires places { All (λ r. r.place < length netlist.now.classes) plan.now.registers.items }
    ensures { IfOk result (λ s. IsSketchOf netlist.now plan.now s) }
{
    let count = netlist.count() as usize;
    let many = plan.registers.len();
    let gates = gates(alloc, count, &plan.registers)?;
    let ports = scan_ports(alloc, netlist.ports())?;
    let classes = all_classes(alloc, netlist, plan, &ports, &gates)?;
    Ok(Sketch {
        name: netlist.name().copy(alloc)?,
        ports,
        entries: entries(alloc, netlist, &plan.parts, &gates)?,
        classes,
        count: count + 3 * many + 7,
    })
}

/// Puts a scan path through the registers of a netlist, in the order of the path.
///
/// The new netlist has the ports of the given one, the scalar inputs vdd and vss also where that lacks them, the inputs scin and test,
/// and the output scout. Behind its instances stand the gates s0, s1 and so on: s0 inverts test, where there is a register; register j of
/// the path, from 0, gets three nands, s(3j+1) of test and the output of the register before it (of scin for the first), s(3j+2) of s0 and
/// what its data pin read, and s(3j+3) of both, which feeds its data pin; two inverters lead from the last register's output, or from scin
/// without registers, to scout. The cells are usable ones of the library. So where test is 0 it behaves as the given netlist, and where
/// test is 1 the registers shift.
///
/// It is refused, in this order: by `Taken` with the first of the names scin, test, scout, s0, s1 and so on that is to be added, but is
/// the text of a port or the name of an instance; by `NoCover` where no usable cell is an inverter, or else none a nand of two inputs; by
/// `Unknown` with the first name of the path that is no register's; by `Twice` with the first that stood before; by `Left` with the first
/// register that the path lacks. The netlist must meet what the stages ask, with usable cells of the library.
///
/// Which usable inverter and which usable nand are taken, where the library has several, is left open. The netlist must have fewer than
/// 2^27 instances, and fewer than 2^27 ports and pins, so that all gates can be numbered.
///
/// Takes memory for the new netlist and for names; time for each terminal the logarithm of their number, and for each instance once for
/// each cell of the library.
pub fn insert_scan(
    alloc: Global,
    netlist: &Netlist,
    library: &Library,
    path: &[Text],
) -> Result<Netlist, ScanError>
    requires scannable { IsScannable library.now netlist.now }
    requires room { HasRoomForScan netlist.now }
    ensures scanned { IfOk result (λ r. IsScanned netlist.now library.now path.now r) }
    ensures sound { IfOk result (λ r. IsNetlist r) }
    ensures meets { IfOk result (λ r. StillMeets library.now netlist.now r) }
    ensures scans { IfOk result (λ r. IsScanPath library.now path.now netlist.now r) }
    ensures able { OnOk result (IsAble library.now netlist.now path.now) }
    ensures few { OnOk result (length path.now < 2 ^ 27) }
    ensures refused { IfErr result (λ e. IsScanRefusal library.now netlist.now path.now e) }
{
    scanned_meets();
    scanned_scans();
    let plan = match make_plan(alloc, netlist, library, path) {
        Ok(plan) => plan,
        Err(error) => return Err(error),
    };
    let sketch = sketch(alloc, netlist, &plan)?;
    Ok(build(alloc, &sketch)?)
}
