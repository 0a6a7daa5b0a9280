// Where a machine's names stand among the bits that patterns list.
ghost use Rattle.std.specs.Prelude.{◌≡◌, map, IfOk};
ghost use Rattle.std.specs.FinMap.{get};
ghost use Rattle.std.specs.Option.{option_copied};
ghost use Rattle.machine_core.specs.Machine.{is_clock as is_clock_name};
ghost use Rattle.machine_core.specs.Order.{AllDifferent};
ghost use Rattle.pat_meaning.specs.Columns.{listed};
ghost use Rattle.asimut_sim.specs.Places.{place_of};
ghost use Rattle.asimut_sim.specs.Plan.{IsPlan, clock_place as place_of_clock, inputs_among, is_vector_bit as is_bit_of_vector};

use crate::columns::listed_names;
use crate::places::Index;
use machine_core::Machine;
use pat_meaning::Column;
use std::alloc::{AllocError, Global};
use vlsi_base::{Dir, Name, Port};

/// The listed bits, the places of the machine's inputs and of its clock among them, and their places among the names of
/// the machine.
#[derive(Drop)]
pub(crate) struct Plan {
    pub(crate) listed: Vec<Name>,
    pub(crate) inputs: Vec<Option<usize>>,
    pub(crate) clock: Option<usize>,
    pub(crate) seen: Vec<Option<usize>>,
}

fn is_clock(clock: Option<&Name>, name: &Name) -> bool
    ensures { result ≡ is_clock_name (option_copied clock.entry) name.now }
{
    match clock {
        Some(clock) => clock.is_same(name),
        None => false,
    }
}

fn is_vector_bit(clock: Option<&Name>, port: &Port) -> bool
    ensures { result ≡ is_bit_of_vector (option_copied clock.entry) port.now }
{
    match port.dir {
        Dir::In => !is_clock(clock, &port.name),
        Dir::Out => false,
    }
}

fn input_places<'a>(
    alloc: Global,
    index: &Index<'a>,
    clock: Option<&Name>,
    ports: &'a [Port],
) -> Result<Vec<Option<usize>>, AllocError>
    ensures { IfOk result (λ v. v.items ≡ map (get index.now.places) (inputs_among (option_copied clock.entry) ports.now)) }
{
    let mut places = Vec::new(alloc);
    for port in ports {
        if is_vector_bit(clock, port) {
            places.push(index.find(&port.name))?;
        }
    }
    Ok(places)
}

#[derive(Drop)]
struct Given {
    inputs: Vec<Option<usize>>,
    clock: Option<usize>,
}

fn given_places(alloc: Global, machine: &Machine, listed: &[Name]) -> Result<Given, AllocError>
    requires { AllDifferent listed.now }
    ensures inputs { IfOk result (λ g. g.inputs.items ≡ map (place_of listed.now) (inputs_among machine.now.clock machine.now.ports)) }
    ensures clock { IfOk result (λ g. g.clock ≡ place_of_clock listed.now machine.now.clock) }
{
    let index = Index::of(alloc, listed)?;
    let ports = machine.ports().as_slice();
    let inputs = input_places(alloc, &index, machine.clock(), ports)?;
    let clock = match machine.clock() {
        Some(name) => index.find(name),
        None => None,
    };
    Ok(Given { inputs, clock })
}

fn seen_places(
    alloc: Global,
    machine: &Machine,
    listed: &[Name],
) -> Result<Vec<Option<usize>>, AllocError>
    ensures { IfOk result (λ v. v.items ≡ map (place_of machine.now.vars) listed.now) }
{
    let vars = machine.vars().as_slice();
    let index = Index::of(alloc, vars)?;
    index.find_all(alloc, listed)
}

/// The plan of a machine and columns. It takes memory for the names of their bits, and while it is made for an index of
/// the machine's names.
pub(crate) fn make_plan(
    alloc: Global,
    machine: &Machine,
    columns: &[Column],
) -> Result<Plan, AllocError>
    requires { AllDifferent (listed columns.now) }
    ensures { IfOk result (λ p. IsPlan machine.now columns.now p.listed.items p.inputs.items p.clock p.seen.items) }
{
    let listed = listed_names(alloc, columns)?;
    let given = given_places(alloc, machine, &listed)?;
    let seen = seen_places(alloc, machine, &listed)?;
    let Given { inputs, clock } = given;
    Ok(Plan {
        listed,
        inputs,
        clock,
        seen,
    })
}
