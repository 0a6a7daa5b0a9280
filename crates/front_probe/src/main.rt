//! Reads texts as the tools read the front of a VHDL file, and prints a line for each. It serves the runs of many texts
//! and the measurements; it is no tool of `alliance`.
//!
//! Standard input holds texts one behind another: the number of its bytes, LF, the bytes. Of each text the entity is read,
//! what stands before the first `signal` or `begin` is passed over, the declarations are read, and then the expression
//! behind each `<=` up to its `;`.
#![tactic(auto)]

mod answer;
mod cases;

use anyhow::Result;
use std::io::{BufWriter, Read, Write};

fn main(rt: HostRuntime) -> Result<()> {
    let alloc = rt.alloc();
    let mut given = Vec::new(alloc);
    let mut reader = rt.reader();
    let mut chunk = [0u8; 65536];
    for _ in 0..u64::MAX {
        let count = reader.read(&mut chunk)?;
        if count == 0 {
            break;
        }
        given.extend_from_slice(&chunk[..count])?;
    }
    let mut out = BufWriter::new(alloc, std::io::writer(&rt))?;
    let mut rest = given.as_slice();
    for _ in 0..u64::MAX {
        let Some((case, more)) = cases::next(rest) else {
            break;
        };
        let line = answer::line(alloc, case)?;
        out.write_all(line.as_bytes())?;
        rest = more;
    }
    out.flush()?;
    Ok(())
}
