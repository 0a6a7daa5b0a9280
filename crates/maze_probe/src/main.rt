//! Routes nets of random terminals over an empty grid, for measurements and tests; it is no tool of `alliance`.
//!
//! The first word is `pins`, for one net of so many terminals, or `pairs` or `triples`, for so many nets of two or three; behind it stand
//! the highest metal, the columns and the rows of the grid, that number, and a seed. The line says how many nodes, nets and points there
//! are, whether all nets are routed or at which net and point one is stuck, counted from 0, and the steps and vias of all paths together.
//!
//! With a number of rips behind the seed, stuck nets have others torn out, with no rip, one, two and so on up to that number. A line
//! `net` has the points of a net. Each run has `rip` with the stuck net, its point and the torn net of its last rip, a line `path` for
//! each path, from its end back to the tree that it joined, and whether all nets are routed or at which net and point one is stuck; the last
//! run has `no rip helps` alone where it made no more than the one before. A node is its metal, column and row.
#![tactic(auto)]

mod answer;
mod moves;
mod nets;
mod places;
mod trial;

use anyhow::{Context, Result};
use std::env;
use trial::Trial;

const USAGE: &str = "usage: maze_probe pins|pairs|triples METALS COLUMNS ROWS NUMBER SEED [RIPS]";

// How many numbers make a trial.
const TRIAL_NUMBERS: usize = 5;

// The trial that the words ask for, and how many rips.
fn asked(rt: &HostRuntime) -> Result<(Trial, Option<u32>)> {
    let mut words = env::args(rt)?.skip(1);
    let kind = words.next().context(USAGE)?;
    let mut numbers = Vec::new(rt.alloc());
    for word in words {
        numbers.push(word.parse::<u32>().context(USAGE)?)?;
    }
    let rips = if numbers.len() > TRIAL_NUMBERS {
        numbers.pop()
    } else {
        None
    };
    Ok((Trial::of(&kind, &numbers).context(USAGE)?, rips))
}

fn main(rt: HostRuntime) -> Result<()> {
    let (trial, rips) = asked(&rt)?;
    match rips {
        Some(rips) => moves::print(&rt, rt.alloc(), &trial, rips),
        None => answer::print(&rt, rt.alloc(), &trial),
    }
}
