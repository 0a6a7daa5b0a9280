// What each terminal of a netlist does, by a table of pins.
ghost use Rattle.std.specs.Prelude.{◌≡◌, ◌<◌, ◌++◌, map, length, IfOk, OnOk};
ghost use Rattle.std.specs.List.{All, flat_map};
ghost use Rattle.net_core.specs.Frame.{instance_of};
ghost use Rattle.net_core.specs.Places.{NoneTwice};
ghost use Rattle.net_core.specs.Checks.{Fits, port_role, pin_role, pins_named, pin_roles, roles, all_clocks};

use crate::frame::Node;
use crate::netlist::Netlist;
use crate::pins::{ModelPin, ModelPins, PinTable};
use crate::roll::Roll;
use crate::tally::{Role, pin_role, port_role};
use std::alloc::{AllocError, Global};
use vlsi_base::{Port, Text};

/// The names of a table's models. Takes memory for them.
pub fn model_names(alloc: Global, table: &[ModelPins]) -> Result<Roll, AllocError>
    requires { NoneTwice (map (λ m. m.model) table.now) }
    ensures { IfOk result (λ names. names ≡ map (λ m. m.model) table.now) }
{
    let mut names = Roll::new(alloc);
    for model in table {
        names.learn(alloc, &model.model)?;
    }
    Ok(names)
}

/// The pins of a model; none where the table doesn't list it. Takes no memory.
pub fn pins_of<'t>(names: &Roll, table: &'t [ModelPins], model: &Text) -> &'t [ModelPin]
    requires { names.now ≡ map (λ m. m.model) table.now }
    ensures { result.now ≡ pins_named table.now model.now }
{
    match names.place(model) {
        Some(place) => match table.get(place) {
            Some(model) => model.pins.as_slice(),
            None => &[],
        },
        None => &[],
    }
}

fn push_ports(roles: &mut Vec<Role>, ports: &[Port]) -> Result<(), AllocError>
    ensures { OnOk result (roles.new.items ≡ roles.old.items ++ map port_role ports.now) }
{
    for port in ports {
        roles.push(port_role(port))?;
    }
    Ok(())
}

fn push_pins(roles: &mut Vec<Role>, pins: &[ModelPin]) -> Result<(), AllocError>
    ensures { OnOk result (roles.new.items ≡ roles.old.items ++ map pin_role pins.now) }
{
    for pin in pins {
        roles.push(pin_role(pin))?;
    }
    Ok(())
}

fn push_nodes(
    roles: &mut Vec<Role>,
    names: &Roll,
    table: &[ModelPins],
    models: &[Text],
    nodes: &[Node],
) -> Result<(), AllocError>
    requires names { names.now ≡ map (λ m. m.model) table.now }
    requires known { All (λ i. i.model < length models.now) nodes.now }
    ensures { OnOk result (roles.new.items ≡ roles.old.items ++ pin_roles table.now (map (instance_of models.now) nodes.now)) }
{
    for node in nodes {
        let pins = pins_of(names, table, &models[node.model]);
        push_pins(roles, pins)?;
    }
    Ok(())
}

/// What each terminal does, in the order of terminals. Takes memory for each, and for the names of the table's models.
pub fn roles(alloc: Global, netlist: &Netlist, table: &PinTable) -> Result<Vec<Role>, AllocError>
    requires { Fits netlist.now table.now }
    ensures { IfOk result (λ v. v.items ≡ roles table.now netlist.now) }
{
    let names = model_names(alloc, table.as_slice())?;
    let mut roles = Vec::new(alloc);
    push_ports(&mut roles, netlist.ports())?;
    push_nodes(
        &mut roles,
        &names,
        table.as_slice(),
        netlist.models(),
        netlist.nodes(),
    )?;
    Ok(roles)
}

/// How many of the roles are those of clock pins.
pub fn clock_count(roles: &[Role]) -> usize
    ensures { result ≡ all_clocks roles.now }
{
    let mut count = 0;
    for role in roles {
        if *role == Role::ClockPin {
            count += 1;
        }
    }
    count
}
