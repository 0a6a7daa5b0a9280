// Where time goes back.
ghost use Rattle.std.specs.Prelude.{◌≡◌, ◌-◌, ◌*◌, ◌^◌, ◌≤◌, min};
ghost use Rattle.pat_io.specs.Fitting.{unit_size, time_behind, time_faults};
ghost use Rattle.pat_io.specs.PatternText.{first_line};

use pat_meaning::{Time, TimeUnit};
use pat_text::ParsedPattern;

/// A unit in femtoseconds.
fn unit_size(unit: TimeUnit) -> u64
    ensures size { result ≡ unit_size unit }
    ensures few { result ≤ 10 ^ 12 }
{
    match unit {
        TimeUnit::Femtosecond => 1,
        TimeUnit::Picosecond => 1_000,
        TimeUnit::Nanosecond => 1_000_000,
        TimeUnit::Microsecond => 1_000_000_000,
        TimeUnit::Millisecond => 1_000_000_000_000,
    }
}

/// How many femtoseconds a time is by itself.
fn further(time: Time) -> u128
    ensures time { result ≡ time.number * unit_size time.unit }
    ensures few { result ≤ 2 ^ 72 }
{
    u128::from(time.number) * u128::from(unit_size(time.unit))
}

/// The time of a pattern behind one at this time, in femtoseconds. A time of 2^128 or more stands as
/// 2^128 - 1. That changes no answer: a time that is added to it isn't before it, and a time by itself, at most 2^72, is before it
/// either way.
fn time_behind(before: u128, time: Time) -> u128
    ensures time { result ≡ min (time_behind before time) (2 ^ 128 - 1) }
    ensures few { time.number * unit_size time.unit ≤ 2 ^ 72 }
{
    let base = if time.is_added { before } else { 0 };
    base.saturating_add(further(time))
}

/// The line of the first pattern that is before the one before it. Takes no memory.
pub fn time_fault(patterns: &[ParsedPattern]) -> Option<u32>
    ensures { result ≡ first_line (time_faults 0 patterns.now) }
{
    let mut before = 0u128;
    for pattern in patterns {
        let now = time_behind(before, pattern.time);
        if now < before {
            return Some(pattern.line);
        }
        before = now;
    }
    None
}
