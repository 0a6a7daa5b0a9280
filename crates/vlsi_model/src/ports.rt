// Port bits in the order of names, and the names of inputs.
ghost use Rattle.std.specs.Prelude.{◌≡◌, ◌++◌, map, IfOk, OnOk};
ghost use Rattle.std.specs.List.Sorted.{IsPermutation};
ghost use Rattle.std.specs.Option.{option_copied, option_to_list};
ghost use Rattle.machine_core.specs.Checked.{AreInOrder};
ghost use Rattle.machine_core.specs.Order.{AllDifferent};
ghost use Rattle.machine_core.specs.Machine.{names_of, is_clock};
ghost use Rattle.source_checks.specs.Elaboration.{port_bits};
ghost use Rattle.vlsi_model.specs.Numbered.{input_names};
ghost use Rattle.vlsi_model.specs.PortNames.{port_of_role, port_named};

use source_bits::Numbers;
use source_checks::{Role, SymbolTable};
use std::alloc::{AllocError, Global};
use vlsi_base::{Dir, Name, Port, is_supply};

fn port_of_role(role: Role, name: Name) -> Option<Port>
    ensures { result ≡ port_of_role role name }
{
    match role {
        Role::Input => Some(Port { name, dir: Dir::In }),
        Role::Output => Some(Port {
            name,
            dir: Dir::Out,
        }),
        Role::Both | Role::Inner | Role::Register => None,
    }
}

/// The port bit of a declared bit, if it is one.
fn port_named(table: &SymbolTable, name: Name) -> Option<Port>
    ensures { result ≡ port_named table.now name }
{
    match table.find(name.text.as_bytes()) {
        Some(symbol) => {
            if is_supply(symbol.text.as_bytes()) {
                None
            } else {
                port_of_role(symbol.role, name)
            }
        }
        None => None,
    }
}

/// Puts a port bit, if there is one, behind those that are there.
fn push_some(ports: &mut Vec<Port>, port: Option<Port>) -> Result<(), AllocError>
    ensures { OnOk result (ports.new.items ≡ ports.old.items ++ option_to_list port) }
{
    match port {
        Some(port) => ports.push(port)?,
        None => {}
    }
    Ok(())
}

/// The bits of the ports but vdd and vss, in file order.
pub fn ports_in_file_order(alloc: Global, numbers: &Numbers) -> Result<Vec<Port>, AllocError>
    requires { AllDifferent (map (λ s. s.text) numbers.now) }
    ensures { IfOk result (λ ports. ports.items ≡ port_bits numbers.now) }
{
    let mut ports = Vec::new(alloc);
    for k in 0..numbers.total() {
        let name = numbers.name(alloc, k)?;
        push_some(&mut ports, port_named(numbers.table(), name))?;
    }
    Ok(ports)
}

/// Port bits in the order of names.
pub fn sorted_ports(ports: Vec<Port>) -> Result<Vec<Port>, AllocError>
    requires { AllDifferent (names_of ports.items) }
    ensures moved { IfOk result (λ sorted. IsPermutation ports.items sorted.items) }
    ensures ordered { IfOk result (λ sorted. AreInOrder (names_of sorted.items)) }
{
    let mut sorted = ports;
    sorted.sort_by(|a, b| a.name.compare(&b.name))?;
    Ok(sorted)
}

fn is_clock(clock: Option<&Name>, name: &Name) -> bool
    ensures { result ≡ is_clock (option_copied clock.entry) name.now }
{
    match clock {
        Some(clock) => clock.is_same(name),
        None => false,
    }
}

/// Puts the names of the inputs but the clock behind those that are there.
pub fn push_inputs(
    alloc: Global,
    clock: Option<&Name>,
    ports: &[Port],
    names: &mut Vec<Name>,
) -> Result<(), AllocError>
    ensures { OnOk result (names.new.items ≡ names.old.items ++ input_names (option_copied clock.entry) ports.now) }
{
    for port in ports {
        if port.dir == Dir::In && !is_clock(clock, &port.name) {
            names.push(port.name.copy(alloc)?)?;
        }
    }
    Ok(())
}
