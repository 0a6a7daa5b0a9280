// The numbers of a machine's names.
ghost use Rattle.std.specs.Prelude.{◌≡◌, ◌<◌, length, not, filter, IfOk, IsSomeAnd};
ghost use Rattle.std.specs.List.{AllZip};
ghost use Rattle.vlsi_base.specs.Member.{In};
ghost use Rattle.machine_core.specs.Machine.{names_of, is_input};
ghost use Rattle.net_theory.specs.Sources.{IsNumber};
ghost use Rattle.cell_model.specs.Access.{count_to};
ghost use Rattle.subject_graph.specs.Subject.{IsNumberable};
ghost use Rattle.subject_graph.specs.Stages.{IsSolved, IsNumberOf};

use machine_core::Machine;
use std::alloc::{AllocError, Global};
use subject_table::Table;
use vlsi_base::{Dir, Name, NameIndex, Port};

/// The numbers of inputs and registers.
fn held_numbers(alloc: Global, held: u32) -> Result<Vec<u32>, AllocError>
    ensures { IfOk result (λ v. v.items ≡ count_to held) }
{
    let mut numbers = Vec::new(alloc);
    for number in 0..held {
        numbers.push(number)?;
    }
    Ok(numbers)
}

/// The table of a machine's equations, and the number of each of its names. Takes memory for them.
pub(crate) fn solved(alloc: Global, m: &Machine) -> Result<(Table, Vec<u32>), AllocError>
    requires { IsNumberable m.now }
    ensures { IfOk result (λ r. IsSolved m.now r.0 r.1.items) }
{
    let equations = m.equations().as_slice();
    let held = (m.vars().as_slice().len() - equations.len()) as u32;
    let mut numbers = held_numbers(alloc, held)?;
    let mut table = Table::new(alloc, held);
    table.equations(equations, &mut numbers)?;
    Ok((table, numbers))
}

/// The number of the name that stands at this place.
fn number_at(numbers: &[u32], place: Option<usize>) -> u32
    requires { IsSomeAnd place (λ j. j < length numbers.now) }
    ensures { IsSomeAnd place (λ j. IsNumber numbers.now j result) }
{
    match place {
        Some(place) => numbers[place],
        None => unreachable!(),
    }
}

fn is_output(port: &Port) -> bool
    ensures { result ≡ not (is_input port.now.dir) }
{
    port.dir == Dir::Out
}

/// The numbers of the outputs among these ports, in their order. Takes memory for them and, while they are looked up, for
/// an index of the names.
pub(crate) fn output_numbers(
    alloc: Global,
    names: &[Name],
    ports: &[Port],
    numbers: &[u32],
) -> Result<Vec<u32>, AllocError>
    requires count { length numbers.now ≡ length names.now }
    requires driven { (name : Name) → In name (names_of (filter (λ p. not (is_input p.dir)) ports.now)) → In name names.now }
    ensures { IfOk result (λ v. AllZip (IsNumberOf names.now numbers.now) (names_of (filter (λ p. not (is_input p.dir)) ports.now)) v.items) }
{
    let mut index = NameIndex::new(alloc);
    index.insert_all(names)?;
    let mut found = Vec::new(alloc);
    for port in ports {
        if !is_output(port) {
            continue;
        }
        let place = index.find(port.name.text.as_bytes(), port.name.bit);
        found.push(number_at(numbers, place))?;
    }
    Ok(found)
}
