// The ports of a netlist with a scan path.
ghost use Rattle.std.specs.Prelude.{◌≡◌, ◌++◌, filter, IfOk, OnOk};
ghost use Rattle.vlsi_base.specs.Names.{scalar, comes_before};
ghost use Rattle.scan_theory.specs.Scan.{with_port, scan_ports};

use cell_pins::with_supplies;
use std::alloc::{AllocError, Global};
use vlsi_base::{Dir, Name, Port, Text};

fn copied(alloc: Global, port: &Port) -> Result<Port, AllocError>
    ensures { IfOk result (λ made. made ≡ port.now) }
{
    Ok(Port {
        name: port.name.copy(alloc)?,
        dir: port.dir,
    })
}

// Puts those ports behind the others that come before a name.
fn push_before(
    alloc: Global,
    made: &mut Vec<Port>,
    ports: &[Port],
    name: &Name,
) -> Result<(), AllocError>
    ensures { OnOk result (made.new.items ≡ made.old.items ++ filter (λ p. comes_before p.name name.now) ports.now) }
{
    for port in ports {
        if port.name.compare(name).is_lt() {
            made.push(copied(alloc, port)?)?;
        }
    }
    Ok(())
}

// Puts those ports behind the others that a name comes before.
fn push_behind(
    alloc: Global,
    made: &mut Vec<Port>,
    ports: &[Port],
    name: &Name,
) -> Result<(), AllocError>
    ensures { OnOk result (made.new.items ≡ made.old.items ++ filter (λ p. comes_before name.now p.name) ports.now) }
{
    for port in ports {
        if name.compare(&port.name).is_lt() {
            made.push(copied(alloc, port)?)?;
        }
    }
    Ok(())
}

// The ports with one more where its name belongs.
fn with_port(alloc: Global, ports: &[Port], text: &[u8], dir: Dir) -> Result<Vec<Port>, AllocError>
    ensures { IfOk result (λ made. made.items ≡ with_port (record { name = scalar text.now; dir = dir }) ports.now) }
{
    let name = Name::scalar(Text::from_bytes(alloc, text)?);
    let mut made = Vec::new(alloc);
    push_before(alloc, &mut made, ports, &name)?;
    made.push(Port {
        name: name.copy(alloc)?,
        dir,
    })?;
    push_behind(alloc, &mut made, ports, &name)?;
    Ok(made)
}

/// The ports with vdd and vss, the inputs scin and test and the output scout, in the order of names. Takes memory for their names.
pub(crate) fn scan_ports(alloc: Global, ports: &[Port]) -> Result<Vec<Port>, AllocError>
    ensures { IfOk result (λ made. made.items ≡ scan_ports ports.now) }
{
    let ports = with_supplies(alloc, ports)?;
    let ports = with_port(alloc, &ports, b"scin", Dir::In)?;
    let ports = with_port(alloc, &ports, b"test", Dir::In)?;
    with_port(alloc, &ports, b"scout", Dir::Out)
}
