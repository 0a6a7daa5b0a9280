// How many pins, registers and clocks a machine has.
ghost use Rattle.std.specs.Prelude.{◌≡◌, length, filter, not};
ghost use Rattle.std.specs.Option.{option_copied};
ghost use Rattle.machine_core.specs.Machine.{is_input, inputs};
ghost use Rattle.machine_core.specs.Named.{value_at};
ghost use Rattle.cell_function.specs.Function.{are_scalar};
ghost use Rattle.cell_function.specs.Row.{first, output_names, only_output};

use machine_core::Machine;
use vlsi_base::{Dir, Name, Port};

/// Whether no pin is a bit of a vector.
pub(crate) fn are_scalar(ports: &[Port]) -> bool
    ensures { result ≡ are_scalar ports.now }
{
    for port in ports {
        if port.name.bit.is_some() {
            return false;
        }
    }
    true
}

fn count_outputs(ports: &[Port]) -> usize
    ensures { result ≡ length (filter (λ p. not (is_input p.dir)) ports.now) }
{
    ports.iter().filter(|port| port.dir != Dir::In).count()
}

fn first_output(ports: &[Port]) -> Option<&Name>
    ensures { option_copied result ≡ first (output_names ports.now) }
{
    for port in ports {
        if port.dir == Dir::Out {
            return Some(&port.name);
        }
    }
    None
}

/// The output, where there is just one.
pub(crate) fn only_output(ports: &[Port]) -> Option<&Name>
    ensures { option_copied result ≡ only_output ports.now }
{
    if count_outputs(ports) == 1 {
        first_output(ports)
    } else {
        None
    }
}

/// How many inputs there are beside the clock.
pub(crate) fn input_count(machine: &Machine) -> usize
    ensures { result ≡ length (inputs machine.now) }
{
    let others = machine.registers().as_slice().len() + machine.equations().as_slice().len();
    machine.vars().as_slice().len() - others
}

/// The bit that stands beside a name, and 0 where it isn't among them.
pub(crate) fn value_at(names: &[Name], bits: &[bool], name: &Name) -> bool
    requires { length bits.now ≡ length names.now }
    ensures { result ≡ value_at names.now bits.now name.now }
{
    for (k, other) in names.iter().enumerate() {
        if other.is_same(name) {
            return bits[k];
        }
    }
    false
}
