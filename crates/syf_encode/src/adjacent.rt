// Numbers that bring states near each other of which one leads to the other.
ghost use Rattle.std.specs.Prelude.{◌≡◌, ◌<◌, ◌≤◌, ◌^◌, ◌+◌, ◌*◌, nat_lt, ℕ, Bool, map, length, option_map, IfOk, IfSome};
ghost use Rattle.std.specs.List.{All};
ghost use Rattle.fsm_machine.specs.Encoding.{leads, bits_of, apart, cost, exchanges, exchanged, first_lower, lowered};
ghost use Rattle.fsm_machine.specs.MachineOf.{up};
ghost use Rattle.fsm_code.specs.View.{body_view};
ghost use Rattle.fsm_core.specs.Checked.{most_states};
ghost use Rattle.syf_encode.specs.Pieces.{reach, neighbours_by, AreEdges, pair_weight, exchange_view};

use crate::edges::all_neighbours;
use crate::random::in_order;
use fsm_code::Statements;
use std::alloc::{AllocError, Global};

// Two places of a list, of which the first stands before the second.
#[derive(Clone, Copy)]
struct Pair {
    first: usize,
    second: usize,
}

// In how many bits two numbers differ.
fn distance(a: u32, b: u32) -> u64
    ensures value { (w : ℕ) → a < 2 ^ w → b < 2 ^ w → result ≡ apart (bits_of w a) (bits_of w b) }
    ensures few { result ≤ 32 }
{
    u64::from((a ^ b).count_ones())
}

// How far the neighbours of a state are from it, without this one.
fn reach(numbers: &[u32], state: usize, other: usize, near: &[u32]) -> u64
    requires below { All (λ k. k < length numbers.now) numbers.now }
    requires state { state < length numbers.now }
    requires near { All (λ t. t < length numbers.now) near.now }
    requires few { length near.now ≤ 2 * most_states }
    ensures value { result ≡ reach (length numbers.now) numbers.now state other near.now }
    ensures small { result ≤ 64 * most_states }
{
    let mut sum = 0;
    for neighbour in near {
        let place = *neighbour as usize;
        if place != other {
            sum += distance(numbers[state], numbers[place]);
        }
    }
    sum
}

// What the edges of two states cost, but those between them, which cost the same when the two are exchanged.
fn weight(numbers: &[u32], pair: Pair, near: &[Vec<u32>]) -> u64
    requires below { All (λ k. k < length numbers.now) numbers.now }
    requires edges { AreEdges (length numbers.now) (map (λ v. v.items) near.now) }
    requires first { pair.first < pair.second }
    requires second { pair.second < length numbers.now }
    requires few { length numbers.now ≤ most_states }
    ensures { result ≡ pair_weight numbers.now (exchange_view pair) (map (λ v. v.items) near.now) }
{
    let Pair { first, second } = pair;
    reach(numbers, first, second, &near[first]) + reach(numbers, second, first, &near[second])
}

// Whether the exchange of two states lowers the cost. The numbers stand afterwards as before.
fn lowers(numbers: &mut [u32], pair: Pair, near: &[Vec<u32>]) -> bool
    requires below { All (λ k. k < length numbers.old) numbers.old }
    requires edges { AreEdges (length numbers.old) (map (λ v. v.items) near.now) }
    requires first { pair.first < pair.second }
    requires second { pair.second < length numbers.old }
    requires few { length numbers.old ≤ most_states }
    ensures value { result
        ≡ nat_lt (pair_weight (exchanged numbers.old (exchange_view pair)) (exchange_view pair) (map (λ v. v.items) near.now))
        (pair_weight numbers.old (exchange_view pair) (map (λ v. v.items) near.now)) }
    ensures same { numbers.new ≡ numbers.old }
{
    let before = weight(numbers, pair, near);
    numbers.swap(pair.first, pair.second);
    let after = weight(numbers, pair, near);
    numbers.swap(pair.first, pair.second);
    after < before
}

// The first exchange that lowers the cost.
fn first_lower(numbers: &mut [u32], near: &[Vec<u32>]) -> Option<Pair>
    requires below { All (λ k. k < length numbers.old) numbers.old }
    requires edges { AreEdges (length numbers.old) (map (λ v. v.items) near.now) }
    requires few { length numbers.old ≤ most_states }
    ensures value { (edge : ℕ → ℕ → Bool)
        → map (λ v. v.items) near.now ≡ map (neighbours_by edge (length numbers.old)) (up 0 (length numbers.old))
        → option_map exchange_view result ≡ first_lower (cost edge (length numbers.old)) numbers.old (exchanges (length numbers.old)) }
    ensures within { IfSome result (λ p. (p.first < p.second) × (p.second < length numbers.old)) }
    ensures same { numbers.new ≡ numbers.old }
{
    for first in 0..numbers.len() {
        for second in first + 1..numbers.len() {
            let pair = Pair { first, second };
            if lowers(numbers, pair, near) {
                return Some(pair);
            }
        }
    }
    None
}

/// The numbers from 0 on, one for each state, exchanged as long as an exchange of two brings the states nearer each other of which one
/// leads to the other: each time the first exchange that lowers the cost. Each lowers it, so there are no more of them than the cost
/// is at the start. Takes time for the edges of each pair of states at each exchange.
pub(crate) fn adjacent_numbers(
    alloc: Global,
    count: usize,
    body: &Statements,
) -> Result<Vec<u32>, AllocError>
    requires { count ≤ most_states }
    ensures { IfOk result (λ numbers. numbers.items ≡ lowered (cost (λ s t. leads s t (body_view body.now)) count) (exchanges count)
        (cost (λ s t. leads s t (body_view body.now)) count (up 0 count) + 1) (up 0 count)) }
{
    let near = all_neighbours(alloc, count, body)?;
    let mut numbers = in_order(alloc, count)?;
    while let Some(pair) = first_lower(&mut numbers, &near) {
        numbers.swap(pair.first, pair.second);
    }
    Ok(numbers)
}
