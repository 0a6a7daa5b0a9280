// The latest arrivals of the classes of a timing graph.
ghost use Rattle.std.specs.Prelude.{◌≡◌, ◌+◌, ◌^◌, ◌<◌, ◌⊎◌, ℕ, true, false, None, IfSome, length, slice_index_or};
ghost use Rattle.std.specs.List.{All};
ghost use Rattle.net_core.specs.Places.{IsThere};
ghost use Rattle.delay_sta.specs.Graph.{IsGraph, AreReached, arrival_by, IsBy, IsLatest, AreInTime, AreSources, AreStarts, AreSettled};

use crate::graph::TimedArc;

/// When a path arrives by an arc, where classes have these arrivals.
pub(crate) fn arrival_by(arrivals: &[Option<u128>], arc: &TimedArc) -> Option<u128>
    requires inside { arc.now.from < length arrivals.now }
    requires few { arc.now.begins ≡ false → IfSome (slice_index_or arrivals.now arc.now.from None) (λ t. t + arc.now.delay < 2 ^ 128) }
    ensures { result ≡ arrival_by arrivals.now arc.now }
{
    if arc.begins {
        return Some(arc.delay);
    }
    match arrivals[arc.from as usize] {
        Some(time) => Some(time + arc.delay),
        None => None,
    }
}

/// The later of two arrivals.
fn later(one: Option<u128>, other: Option<u128>) -> Option<u128>
    ensures is { (result ≡ one) ⊎ (result ≡ other) }
    ensures one { IsBy one result }
    ensures other { IsBy other result }
{
    match (one, other) {
        (Some(one), Some(other)) => Some(one.max(other)),
        (Some(one), None) => Some(one),
        (None, other) => other,
    }
}

/// The latest of an arrival and those by arcs.
fn latest(start: Option<u128>, arrivals: &[Option<u128>], arcs: &[TimedArc]) -> Option<u128>
    requires inside { All (λ x. x.from < length arrivals.now) arcs.now }
    requires few { All (λ x. x.begins ≡ false → IfSome (slice_index_or arrivals.now x.from None) (λ t. t + x.delay < 2 ^ 128)) arcs.now }
    ensures { IsLatest start arrivals.now arcs.now result }
{
    let mut latest = start;
    for arc in arcs {
        latest = later(latest, arrival_by(arrivals, arc));
    }
    latest
}

/// Marks classes as stale.
pub(crate) fn mark(stale: &mut [bool], classes: &[u32])
    requires { All (λ class. class < length stale.old) classes.now }
    ensures many { length stale.new ≡ length stale.old }
    ensures marked { (class : ℕ) → IsThere classes.now class → slice_index_or stale.new class false ≡ true }
    ensures others { (class : ℕ) → (IsThere classes.now class → ⊥) → slice_index_or stale.new class false ≡ slice_index_or stale.old class false }
{
    for class in classes {
        stale[*class as usize] = true;
    }
}

/// Goes through classes in their order and takes anew the arrivals of those that are stale, and of each that is reached from one whose
/// arrival changes. Takes no memory.
pub(crate) fn settle(
    arrivals: &mut [Option<u128>],
    stale: &mut [bool],
    starts: &[Option<u128>],
    order: &[u32],
    graph: (&[Vec<TimedArc>], &[Vec<u32>]),
)
    requires graph { IsGraph graph.0.now order.now (length arrivals.old) }
    requires reached { AreReached graph.0.now graph.1.now }
    requires starts { AreStarts starts.now }
    requires many { (length starts.now ≡ length arrivals.old) × (length stale.old ≡ length arrivals.old) }
    requires sources { AreSources graph.0.now starts.now arrivals.old }
    requires rest { AreInTime graph.0.now starts.now arrivals.old stale.old }
    ensures many { (length arrivals.new ≡ length arrivals.old) × (length stale.new ≡ length stale.old) }
    ensures settled { AreSettled graph.entry.0.now starts.now arrivals.new }
    ensures fresh { (class : ℕ) → slice_index_or stale.new class false ≡ false }
{
    let (arcs, reached) = graph;
    for class in order {
        let class = *class as usize;
        if stale[class] {
            stale[class] = false;
            let arrival = latest(starts[class], arrivals, &arcs[class]);
            if arrival != arrivals[class] {
                arrivals[class] = arrival;
                mark(stale, &reached[class]);
            }
        }
    }
}
