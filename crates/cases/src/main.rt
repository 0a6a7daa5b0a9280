//! Runs the worked cases of the tools over files in memory, and prints a line for each that comes to another end than it says.
//!
//! The cases lie in the folders below the one where the program runs, or below the one that its argument names. docs/CONTRIBUTING.md
//! says how one is written.
#![tactic(auto)]

mod archive;
mod case;
mod runs;

use anyhow::{Context, Result, ensure};
use case::read_case;
use runs::first_difference;
use std::{env, fs};

// The names in a folder, in their order.
fn names(rt: &HostRuntime, folder: &str) -> Result<Vec<String>> {
    let mut names = Vec::new(rt.alloc());
    for entry in fs::read_dir(rt, folder).context(format_args!("{folder}"))? {
        names.push(String::from_str(rt.alloc(), entry?.file_name())?)?;
    }
    names.sort()?;
    Ok(names)
}

// Runs one case, and prints how it differs. Whether it does.
fn differs(rt: &HostRuntime, path: &str) -> Result<bool> {
    let text = fs::read_to_string(rt, path).context(format_args!("{path}"))?;
    let case = read_case(rt.alloc(), text.as_str()).context(format_args!("{path}"))?;
    match first_difference(rt.alloc(), &case)? {
        Some(difference) => {
            println!(rt; "{path}: {difference}")?;
            Ok(true)
        }
        None => Ok(false),
    }
}

// The folder whose cases are run.
fn top(rt: &HostRuntime) -> Result<String> {
    match env::args(rt)?.nth(1) {
        Some(folder) => Ok(folder),
        None => Ok(String::from_str(rt.alloc(), ".")?),
    }
}

fn main(rt: HostRuntime) -> Result<()> {
    let top = top(&rt)?;
    let mut cases = 0u64;
    let mut differing = 0u64;
    for folder in names(&rt, top.as_str())? {
        let folder = format!(in rt.alloc(); "{top}/{folder}")?;
        for name in names(&rt, folder.as_str())? {
            let path = format!(in rt.alloc(); "{folder}/{name}")?;
            cases = cases.saturating_add(1);
            if differs(&rt, path.as_str())? {
                differing = differing.saturating_add(1);
            }
        }
    }
    println!(rt; "{differing} differ")?;
    ensure!(cases > 0, "there is no case");
    ensure!(differing == 0, "{differing} of {cases} cases differ");
    Ok(())
}
