//! Reads ap files and libraries of cells as the tools read them, and prints a line for each. It serves the runs against
//! second readers and the measurements; it is no tool of `alliance`.
//!
//! The first word is `ap`, `figure` or `joints`, before names of ap files, or `library` or `tracks`, before names of folders.
//! With `ap` the text of what is read stands on the line too; with `tracks` a library also passes the check that only layouts
//! by private tracks ask for.
#![tactic(auto)]

mod answer;
mod escape;
mod joined;

use anyhow::Result;
use std::env;
use std::io::{BufWriter, Write};
use vlsi_base::FileName;
use vlsi_shelf::DirShelf;

fn main(rt: HostRuntime) -> Result<()> {
    let alloc = rt.alloc();
    let mut shelf = DirShelf::begin(&rt);
    let mut out = BufWriter::new(alloc, std::io::writer(&rt))?;
    let mut kind = None;
    for word in env::args(&rt)?.skip(1) {
        let Some(kind) = kind else {
            kind = answer::Kind::of(&word);
            continue;
        };
        let name = FileName::from_bytes(alloc, word.as_bytes())?;
        let line = answer::line(alloc, kind, &name, &mut shelf)?;
        out.write_all(line.as_bytes())?;
    }
    out.flush()?;
    Ok(())
}
