// A case as its file has it: a head, and then sections, each below a line with its name.

use anyhow::{Context, Result};
use std::alloc::{AllocError, Global};

/// What a section holds.
#[derive(Drop)]
pub enum Place {
    /// A file as it is before the run.
    Before(String),
    /// What is printed.
    Printed,
    /// A file as it is after the run.
    After(String),
}

/// A section of a case.
#[derive(Drop)]
pub struct Section {
    pub place: Place,
    pub text: String,
}

fn place_named(alloc: Global, name: &str) -> Result<Place, AllocError> {
    if name == "stdout" {
        return Ok(Place::Printed);
    }
    match name.strip_prefix("after: ") {
        Some(file) => Ok(Place::After(String::from_str(alloc, file)?)),
        None => Ok(Place::Before(String::from_str(alloc, name)?)),
    }
}

/// The section that a line begins, if it is a line `-- NAME --`.
pub fn begun(alloc: Global, line: &str) -> Result<Option<Section>, AllocError> {
    let Some(behind) = line.strip_prefix("-- ") else {
        return Ok(None);
    };
    let Some(name) = behind.strip_suffix(" --") else {
        return Ok(None);
    };
    Ok(Some(Section {
        place: place_named(alloc, name)?,
        text: String::new(alloc),
    }))
}

// Puts what stands between `<<` and `>>` behind a text: `N TEXT`, a text so many times.
fn append_repeated(text: &mut String, between: &str) -> Result<()> {
    let (count, repeated) = between.split_once(' ').context("<< without a blank")?;
    let count = count.parse::<u32>().context("<< without a number")?;
    for _ in 0..count {
        text.push_str(repeated)?;
    }
    Ok(())
}

/// Puts a line behind a text, with each `<<N TEXT>>` written out.
pub fn append_expanded(text: &mut String, line: &str) -> Result<()> {
    let mut rest = line;
    for _ in 0..u64::MAX {
        let Some((plain, behind)) = rest.split_once("<<") else {
            break;
        };
        text.push_str(plain)?;
        let (between, next) = behind.split_once(">>").context("<< without >>")?;
        append_repeated(text, between)?;
        rest = next;
    }
    text.push_str(rest)?;
    Ok(())
}

/// Puts a line of a section behind its text. It ends with LF, but for one that `<<open>>` ends.
pub fn append_line(section: &mut Section, line: &str) -> Result<()> {
    match line.strip_suffix("<<open>>") {
        Some(open) => append_expanded(&mut section.text, open),
        None => {
            append_expanded(&mut section.text, line)?;
            section.text.push('\n')?;
            Ok(())
        }
    }
}
