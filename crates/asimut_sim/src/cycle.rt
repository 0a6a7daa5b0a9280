// One cycle of a flat machine: its names settle, and its registers load.
ghost use Rattle.std.specs.Prelude.{◌≡◌, ℕ, ◌+◌, ◌<◌, ◌≤◌, length, All, if◌then◌else◌};
ghost use Rattle.bool_expr.specs.Expression.{bit};
ghost use Rattle.machine_core.specs.Machine.{inputs as input_names, register_names};
ghost use Rattle.machine_core.specs.Named.{values_at};
ghost use Rattle.machine_core.specs.Cycles.{Settles, next};
ghost use Rattle.pat_meaning.specs.Circuit.{of_machine};
ghost use Rattle.pat_meaning.specs.Simulation.{Takes};
ghost use Rattle.asimut_sim.specs.Program.{bits_of};
ghost use Rattle.asimut_sim.specs.Flat.{IsLoadBelow, held_after, IsFlat, IsArray};

use crate::flat::FlatMachine;
use crate::layout::Load;
use machine_core::built_settles;

// Writes bits at the places from this one on.
fn write(bits: &mut [bool], from: usize, values: &[bool])
    requires { from + length values.now ≤ length bits.old }
    ensures before { (k : ℕ) → k < from → bit bits.new k ≡ bit bits.old k }
    ensures written { (k : ℕ) → k < length values.now → bit bits.new (from + k) ≡ bit values.now k }
{
    for (k, value) in values.iter().enumerate() {
        bits[from + k] = *value;
    }
}

// All names settle under an input vector, from the contents of the registers.
fn settle(flat: &FlatMachine, inputs: &[bool], contents: &[bool], bits: &mut [bool])
    requires flat { IsFlat flat.now }
    requires inputs { length inputs.now ≡ length (input_names flat.now.machine.now) }
    requires contents { length contents.now ≡ length flat.now.machine.now.registers }
    requires bits { IsArray flat.now bits.old }
    ensures settles { Settles flat.now.machine.now contents.now inputs.now (bits_of bits.new flat.now.vars.items) }
    ensures bits { IsArray flat.now bits.new }
{
    built_settles();
    write(bits, 2, inputs);
    write(bits, 2 + inputs.len(), contents);
    flat.settling.run(bits);
}

// What a register holds after the clock's rise: its next bit where its enable is 1, and what it held elsewhere.
fn loaded(load: &Load, bits: &[bool], held: bool) -> bool
    requires { IsLoadBelow (length bits.now) load.now }
    ensures { result ≡ (if bit bits.now load.now.enable then bit bits.now load.now.next else held) }
{
    if bits[load.enable] {
        bits[load.next]
    } else {
        held
    }
}

fn load_all(loads: &[Load], bits: &[bool], contents: &mut [bool])
    requires below { All (IsLoadBelow (length bits.now)) loads.now }
    requires lengths { length contents.old ≡ length loads.now }
    ensures { contents.new ≡ held_after bits.now loads.now contents.old }
{
    for (k, load) in loads.iter().enumerate() {
        contents[k] = loaded(load, bits, contents[k]);
    }
}

// The registers load, from bits that have settled on their contents.
fn load(flat: &FlatMachine, bits: &mut [bool], contents: &mut [bool])
    requires flat { IsFlat flat.now }
    requires bits { IsArray flat.now bits.old }
    requires held { values_at flat.now.machine.now.vars (bits_of bits.old flat.now.vars.items) (register_names flat.now.machine.now) ≡ contents.old }
    ensures loads { contents.new ≡ next flat.now.machine.now (bits_of bits.old flat.now.vars.items) }
    ensures bits { IsArray flat.now bits.new }
{
    flat.loading.run(bits);
    load_all(&flat.loads, bits, contents);
}

/// What is observed in a pattern with this input vector, over the contents of the registers: where the clock rises, the
/// registers load and all settles again.
pub(crate) fn observe(
    flat: &FlatMachine,
    inputs: &[bool],
    is_rising: bool,
    contents: &mut [bool],
    bits: &mut [bool],
)
    requires flat { IsFlat flat.now }
    requires inputs { length inputs.now ≡ length (input_names flat.now.machine.now) }
    requires contents { length contents.old ≡ length flat.now.machine.now.registers }
    requires bits { IsArray flat.now bits.old }
    ensures takes { Takes is_rising (of_machine flat.now.machine.now) inputs.now contents.old (bits_of bits.new flat.now.vars.items) contents.new }
    ensures bits { IsArray flat.now bits.new }
{
    settle(flat, inputs, contents, bits);
    if !is_rising {
        return;
    }
    load(flat, bits, contents);
    settle(flat, inputs, contents, bits);
}
