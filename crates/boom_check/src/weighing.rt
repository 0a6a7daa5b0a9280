// How large the inner signals of a machine are.
ghost use Rattle.std.specs.Prelude.{◌≡◌, ◌-◌, ◌^◌, ◌≤◌, true, map, min};
ghost use Rattle.machine_core.specs.View.{equation_view};
ghost use Rattle.boom_check.specs.Kept.{is_shown, hidden_size, inner_size};

use bool_expr::size;
use machine_core::{Equation, Machine};
use vlsi_base::{Dir, Name, Port};

// Whether a port is an output of this name.
fn is_named_output(port: &Port, name: &Name) -> bool
    ensures { result ≡ true → (port.now.dir ≡ Dir.Out) × (port.now.name ≡ name.now) }
{
    match port.dir {
        Dir::Out => port.name.is_same(name),
        Dir::In => false,
    }
}

// Whether an output among these ports, which stand in the order of names, has this name.
fn is_output(ports: &[Port], name: &Name) -> bool
    ensures { result ≡ true → is_shown ports.now name.now ≡ true }
{
    match ports.binary_search_by(|port| port.name.compare(name)) {
        Ok(place) => is_named_output(&ports[place], name),
        Err(_) => false,
    }
}

// What these equations weigh together, but for those of outputs; or the greatest number of the type where that is less.
fn hidden_weight(ports: &[Port], equations: &[Equation]) -> u64
    ensures { min (hidden_size ports.now (map equation_view equations.now)) (2 ^ 64 - 1) ≤ result }
{
    let mut sum = 0u64;
    for equation in equations {
        if !is_output(ports, &equation.name) {
            sum = sum.saturating_add(size(&equation.expr));
        }
    }
    sum
}

/// At least what the equations of inner signals weigh, or the greatest number of the type where that is less. Takes no memory.
pub fn inner_weight(m: &Machine) -> u64
    ensures { min (inner_size m.now) (2 ^ 64 - 1) ≤ result }
{
    hidden_weight(m.ports().as_slice(), m.equations().as_slice())
}
