// Patterns on a machine, one after another.
ghost use Rattle.std.specs.Prelude.{◌≡◌, false, None, IfOk, IfErr, OnOk, length, replicate, map};
ghost use Rattle.std.specs.List.{All};
ghost use Rattle.pat_meaning.specs.Columns.{listed, FitsColumns};
ghost use Rattle.pat_meaning.specs.Simulation.{rises};
ghost use Rattle.pat_meaning.specs.Answers.{AreFor, IsFilled, ObservesOnce};
ghost use Rattle.asimut_sim.specs.Listed.{wanted_bits, other_place as place_of_other, shown};
ghost use Rattle.asimut_sim.specs.Plan.{IsPlan};
ghost use Rattle.asimut_sim.specs.Program.{bits_of};
ghost use Rattle.asimut_sim.specs.Flat.{IsFlat, IsState};
ghost use Rattle.asimut_sim.specs.Answers.{Sees, IsOtherIn, Passes, StopsAt, IsRefusal};

use crate::SimError;
use crate::copies::{copy_columns, copy_label};
use crate::cycle::observe;
use crate::flat::{FlatMachine, flatten, new_array};
use crate::places::{bit_at, bits_at, seen_bits};
use crate::plan::{Plan, make_plan};
use crate::values::{given, other_place, shown_values, wanted, zeros};
use machine_core::{Machine, settles_once};
use pat_meaning::{Column, Pattern, PatternList, Patterns, Values};
use std::alloc::{AllocError, Global};
use vlsi_base::Name;

/// For each machine and any patterns there is exactly one list of observed valuations.
pub fn observes_once()
    ensures { ObservesOnce }
{
    settles_once();
}

// What the registers hold, the clock's value in the pattern before, and the flat machine's array.
#[derive(Drop)]
struct State {
    contents: Vec<bool>,
    clock: bool,
    bits: Vec<bool>,
}

fn is_rise(before: bool, now: bool) -> bool
    ensures { result ≡ rises before now }
{
    !before && now
}

fn see(
    alloc: Global,
    flat: &FlatMachine,
    plan: &Plan,
    columns: &[Column],
    pattern: &Pattern,
    state: &mut State,
) -> Result<(), AllocError>
    requires flat { IsFlat flat.now }
    requires plan { IsPlan flat.now.machine.now columns.now plan.now.listed.items plan.now.inputs.items plan.now.clock plan.now.seen.items }
    requires values { FitsColumns columns.now pattern.now.values }
    requires state { IsState flat.now state.old.contents.items state.old.bits.items }
    ensures sees { OnOk result (Sees flat.now.machine.now columns.now pattern.now state.old.contents.items state.old.clock
        state.new.contents.items state.new.clock (bits_of state.new.bits.items flat.now.vars.items)) }
    ensures state { OnOk result (IsState flat.now state.new.contents.items state.new.bits.items) }
{
    let bits = given(alloc, columns, pattern.values.as_slice())?;
    let inputs = bits_at(alloc, &bits, &plan.inputs)?;
    let clock = bit_at(&bits, plan.clock);
    let is_rising = is_rise(state.clock, clock);
    observe(
        flat,
        &inputs,
        is_rising,
        &mut state.contents,
        &mut state.bits,
    );
    state.clock = clock;
    Ok(())
}

// Whether the bits that are seen are those that the pattern wants.
fn compare(
    alloc: Global,
    names: &[Name],
    bits: &[Option<bool>],
    seen: &[bool],
    number: usize,
) -> Result<(), SimError>
    requires wanted { length bits.now ≡ length seen.now }
    requires names { length names.now ≡ length seen.now }
    ensures same { OnOk result (place_of_other bits.now seen.now ≡ None) }
    ensures other { IfErr result (λ e. IsOtherIn names.now bits.now seen.now number e) }
{
    match other_place(bits, seen) {
        Some(k) => Err(SimError::Differs {
            pattern: number,
            name: names[k].copy(alloc)?,
        }),
        None => Ok(()),
    }
}

fn shown_pattern(
    alloc: Global,
    columns: &[Column],
    pattern: &Pattern,
    seen: &[bool],
) -> Result<Pattern, AllocError>
    requires values { FitsColumns columns.now pattern.now.values }
    requires seen { length seen.now ≡ length (listed columns.now) }
    ensures { IfOk result (λ made. made ≡ record pattern.now { values = shown columns.now pattern.now.values seen.now }) }
{
    let values = shown_values(alloc, columns, pattern.values.as_slice(), seen)?;
    Ok(Pattern {
        time: pattern.time,
        label: copy_label(alloc, &pattern.label)?,
        values: Values::new(values),
    })
}

// One pattern: what it comes to, filled in if that is what it expects.
fn pass(
    alloc: Global,
    flat: &FlatMachine,
    plan: &Plan,
    columns: &[Column],
    pattern: &Pattern,
    number: usize,
    state: &mut State,
) -> Result<Pattern, SimError>
    requires flat { IsFlat flat.now }
    requires plan { IsPlan flat.now.machine.now columns.now plan.now.listed.items plan.now.inputs.items plan.now.clock plan.now.seen.items }
    requires values { FitsColumns columns.now pattern.now.values }
    requires state { IsState flat.now state.old.contents.items state.old.bits.items }
    ensures passes { IfOk result (λ made. Passes flat.now.machine.now columns.now pattern.now number state.old.contents.items
        state.old.clock state.new.contents.items state.new.clock made) }
    ensures state { IfOk result (λ _. IsState flat.now state.new.contents.items state.new.bits.items) }
    ensures stops { IfErr result (λ e. StopsAt flat.now.machine.now columns.now pattern.now number state.old.contents.items state.old.clock e) }
{
    see(alloc, flat, plan, columns, pattern, state)?;
    let seen = seen_bits(alloc, &state.bits, &flat.vars, &plan.seen)?;
    let bits = wanted(alloc, columns, pattern.values.as_slice())?;
    compare(alloc, &plan.listed, &bits, &seen, number)?;
    Ok(shown_pattern(alloc, columns, pattern, &seen)?)
}

fn fill(
    alloc: Global,
    flat: &FlatMachine,
    plan: &Plan,
    columns: &[Column],
    patterns: &[Pattern],
) -> Result<PatternList, SimError>
    requires flat { IsFlat flat.now }
    requires plan { IsPlan flat.now.machine.now columns.now plan.now.listed.items plan.now.inputs.items plan.now.clock plan.now.seen.items }
    requires values { All (λ p. FitsColumns columns.now p.values) patterns.now }
    ensures filled { IfOk result (λ made. IsFilled flat.now.machine.now (record { columns = columns.now; patterns = patterns.now })
        (record { columns = columns.now; patterns = made })) }
    ensures differs { IfErr result (λ e. IsRefusal flat.now.machine.now (record { columns = columns.now; patterns = patterns.now }) e) }
{
    settles_once();
    let mut state = State {
        contents: zeros(alloc, flat.machine.registers().as_slice().len())?,
        clock: false,
        bits: new_array(alloc, flat)?,
    };
    let mut made = PatternList::new(Vec::new(alloc));
    for (number, pattern) in patterns.iter().enumerate() {
        made.push(pass(alloc, flat, plan, columns, pattern, number, &mut state)?)?;
    }
    Ok(made)
}

/// What patterns come to on a machine: the patterns with every output filled in, or the first bit that isn't what is
/// expected, by pattern, then by column, then from the left. The machine is laid out as a list of operators; each of them is
/// evaluated once where the clock doesn't rise, and at most twice where it does. It takes memory for what it answers, and
/// while it runs for each operator, one bit a name, and an index of the names.
pub fn simulate(alloc: Global, machine: &Machine, patterns: &Patterns) -> Result<Patterns, SimError>
    requires { AreFor machine.now.ports patterns.now }
    ensures filled { IfOk result (λ out. IsFilled machine.now patterns.now out) }
    ensures differs { IfErr result (λ e. IsRefusal machine.now patterns.now e) }
{
    let columns = patterns.columns.as_slice();
    let plan = make_plan(alloc, machine, columns)?;
    let flat = flatten(alloc, machine)?;
    let filled = fill(alloc, &flat, &plan, columns, patterns.patterns.as_slice())?;
    Ok(Patterns {
        columns: copy_columns(alloc, columns)?,
        patterns: filled,
    })
}
