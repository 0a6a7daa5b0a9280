// The names of a netlist's classes.
ghost use Rattle.std.specs.Prelude.{◌≡◌, ◌++◌, ◌+◌, ◌-◌, ◌<◌, ◌≤◌, ◌^◌, ℕ, List, None, map, length, IfOk, OnOk};
ghost use Rattle.vlsi_base.specs.Names.{scalar};
ghost use Rattle.net_core.specs.Places.{position_of};
ghost use Rattle.net_core.specs.Netlist.{IsNetlist};
ghost use Rattle.vst_print.specs.Nets.{first_ports, signal_text, signal_numbers, port_nets, net_names};
ghost use Rattle.vst_print.specs.Pieces.{AreTaken};

use net_core::{Netlist, Roll};
use std::alloc::{AllocError, Global};
use vlsi_base::{Name, Port, Text, push_u64};

/// The names of the ports that are the first of their class.
fn first_ports(alloc: Global, ports: &[Port], classes: &[u32]) -> Result<Vec<Name>, AllocError>
    requires { length ports.now ≤ length classes.now }
    ensures { IfOk result (λ v. v.items ≡ first_ports 0 ports.now classes.now) }
{
    let mut names = Vec::new(alloc);
    for k in 0..ports.len() {
        if classes[k] as usize == names.len() {
            names.push(ports[k].name.copy(alloc)?)?;
        }
    }
    Ok(names)
}

/// The texts of ports.
fn port_texts(alloc: Global, ports: &[Port]) -> Result<Roll, AllocError>
    ensures { IfOk result (λ taken. AreTaken ports.now taken) }
{
    let mut taken = Roll::new(alloc);
    for port in ports {
        taken.learn(alloc, &port.name.text)?;
    }
    Ok(taken)
}

fn signal_text(alloc: Global, number: u64) -> Result<Text, AllocError>
    ensures { IfOk result (λ text. text ≡ signal_text number) }
{
    let mut text = Text::from_bytes(alloc, b"n")?;
    push_u64(alloc, &mut text, number)?;
    Ok(text)
}

/// Puts the names of so many signals behind those of ports.
fn push_signals(
    alloc: Global,
    names: &mut Vec<Name>,
    ports: &[Port],
    many: usize,
) -> Result<(), AllocError>
    requires { many + length ports.now < 2 ^ 63 }
    ensures { OnOk result (names.new.items ≡ names.old.items ++ map scalar (map signal_text (signal_numbers ports.now many))) }
{
    let taken = port_texts(alloc, ports)?;
    let mut left = many;
    for number in 0..many + ports.len() {
        if left > 0 {
            let text = signal_text(alloc, number as u64)?;
            if taken.place(&text).is_none() {
                names.push(Name::scalar(text))?;
                left -= 1;
            }
        }
    }
    Ok(())
}

/// The name of each class: its least port, or a signal where it has no port. Also how many classes have a port; these are the
/// first. Takes memory for the names.
pub fn net_names(alloc: Global, netlist: &Netlist) -> Result<(Vec<Name>, usize), AllocError>
    ensures names { IfOk result (λ made. made.0.items ≡ net_names netlist.now) }
    ensures ports { IfOk result (λ made. made.1 ≡ length (port_nets netlist.now)) }
    ensures each { IfOk result (λ made. length made.0.items ≡ netlist.now.count) }
    ensures sound { OnOk result (IsNetlist netlist.now) }
{
    let ports = netlist.ports();
    let mut names = first_ports(alloc, ports, netlist.classes())?;
    let with_port = names.len();
    let without = (netlist.count() as usize).saturating_sub(with_port);
    push_signals(alloc, &mut names, ports, without)?;
    Ok((names, with_port))
}
