// How long an arc of a cell takes.
ghost use Rattle.std.specs.Prelude.{◌≡◌, ◌+◌, ◌*◌, ◌-◌, ◌^◌, ◌<◌, ◌≤◌, ◌++◌, List, ℕ, IfSome};
ghost use Rattle.delay_sta.specs.Arcs.{time_of, greatest, arc_delay};

use cell_model::Arc;

/// The later of a time and that of one more edge, where its generic is given.
fn later(latest: Option<u128>, time: Option<u32>, drag: u128) -> Option<u128>
    requires few { drag ≤ (2 ^ 32 - 1) * (2 ^ 64 - 1) }
    requires short { IfSome latest (λ t. t < 2 ^ 96) }
    ensures short { IfSome result (λ t. t < 2 ^ 96) }
    ensures latest { (others : List ℕ) → latest ≡ greatest others → result ≡ greatest (time_of time drag ++ others) }
{
    let Some(time) = time else {
        return latest;
    };
    let time = 1000 * u128::from(time) + drag;
    match latest {
        Some(other) => Some(time.max(other)),
        None => Some(time),
    }
}

/// What a load adds to each edge behind a resistance.
fn drag(resistance: u32, load: u64) -> u128
    ensures value { result ≡ resistance * load }
    ensures few { result ≤ (2 ^ 32 - 1) * (2 ^ 64 - 1) }
{
    u128::from(resistance) * u128::from(load)
}

/// How long an arc takes with a load in femtofarads, in femtoseconds: its slowest edge.
pub fn arc_delay(arc: &Arc, load: u64) -> u128
    ensures value { result ≡ arc_delay arc.now load }
    ensures short { result < 2 ^ 96 }
{
    let fall = drag(arc.rdown, load);
    let rise = drag(arc.rup, load);
    let latest = later(None, arc.tar, rise);
    let latest = later(latest, arc.tphh, rise);
    let latest = later(latest, arc.tplh, rise);
    let latest = later(latest, arc.taf, fall);
    let latest = later(latest, arc.tpll, fall);
    let latest = later(latest, arc.tphl, fall);
    latest.unwrap_or(fall.max(rise))
}
