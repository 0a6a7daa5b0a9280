// A case: words, the files before, and what the run is to come to.
//
// The head has a line `words: WORDS` for each run, `status: N`, and if it says so the calls that the run makes on the shelf, as
// `calls: read row1.vbe, write out.ap` or `calls: none`; a line that # begins is a comment. Behind it stand the files before, each
// below `-- NAME --`, what is printed below `-- stdout --`, and the files that are written below `-- after: NAME --`. In a line
// `<<N TEXT>>` is TEXT so many times, and a last line that `<<open>>` ends has no LF. What is printed may go on behind a text that has none.

use crate::archive::{Place, Section, append_expanded, append_line, begun};
use anyhow::{Context, Result, bail, ensure};
use std::alloc::Global;

/// What a tool calls on the shelf.
#[derive(Clone, Copy, PartialEq, Eq)]
pub enum Deed {
    Read,
    Write,
}

/// A call on the shelf.
#[derive(Drop)]
pub struct Call {
    pub deed: Deed,
    pub file: String,
}

/// A case.
#[derive(Drop)]
pub struct Case {
    /// The words of a run, for each run.
    pub commands: Vec<String>,
    pub status: u8,
    /// Whether the case says which calls each run makes on the shelf.
    pub tells_calls: bool,
    /// These calls, in their order.
    pub calls: Vec<Call>,
    pub sections: Vec<Section>,
}

impl Case {
    fn new(alloc: Global) -> Self {
        Case {
            commands: Vec::new(alloc),
            status: 0,
            tells_calls: false,
            calls: Vec::new(alloc),
            sections: Vec::new(alloc),
        }
    }

    /// What is printed.
    pub fn printed(&self) -> &str {
        for section in &self.sections {
            if matches!(&section.place, Place::Printed) {
                return section.text.as_str();
            }
        }
        ""
    }

    /// The file before the run, if it is there.
    pub fn before(&self, file: &str) -> Option<&str> {
        for section in &self.sections {
            if let Place::Before(name) = &section.place
                && name.as_str() == file
            {
                return Some(section.text.as_str());
            }
        }
        None
    }

    /// What the run leaves of a file, if it is there then: after so many of the calls.
    pub fn after(&self, file: &str, calls: usize) -> Option<&str> {
        let is_written = self.is_written(file, calls);
        for section in &self.sections {
            if let Place::After(name) = &section.place
                && name.as_str() == file
                && is_written
            {
                return Some(section.text.as_str());
            }
        }
        self.before(file)
    }

    // Whether one of the first calls writes the file. Where the case doesn't say which calls there are, all are made.
    fn is_written(&self, file: &str, calls: usize) -> bool {
        if !self.tells_calls {
            return true;
        }
        for call in self.calls.iter().take(calls) {
            if call.deed == Deed::Write && call.file.as_str() == file {
                return true;
            }
        }
        false
    }
}

// `read FILE` or `write FILE`.
fn read_call(alloc: Global, text: &str) -> Result<Call> {
    let (deed, file) = text.split_once(' ').context("a call without a file")?;
    let deed = match deed {
        "read" => Deed::Read,
        "write" => Deed::Write,
        _ => bail!("a call that neither reads nor writes"),
    };
    let file = String::from_str(alloc, file)?;
    Ok(Call { deed, file })
}

// Calls with commas between them, or `none`.
fn append_calls(alloc: Global, case: &mut Case, text: &str) -> Result<()> {
    case.tells_calls = true;
    if text == "none" {
        return Ok(());
    }
    for part in text.split(", ") {
        case.calls.push(read_call(alloc, part)?)?;
    }
    Ok(())
}

// A line of the head: `KEY: VALUE`, a comment that # begins, or nothing.
fn read_head(alloc: Global, case: &mut Case, line: &str) -> Result<()> {
    if line.is_empty() || line.starts_with('#') {
        return Ok(());
    }
    let (key, value) = line
        .split_once(':')
        .context("a line of the head without a colon")?;
    let value = value.strip_prefix(' ').unwrap_or(value);
    match key {
        "words" => {
            let mut words = String::new(alloc);
            append_expanded(&mut words, value)?;
            case.commands.push(words)?;
        }
        "status" => case.status = value.parse::<u8>().context("the status")?,
        "calls" => append_calls(alloc, case, value)?,
        _ => bail!("{key} is no word of the head"),
    }
    Ok(())
}

// A line of the head or of the newest section.
fn read_line(alloc: Global, case: &mut Case, line: &str) -> Result<()> {
    match begun(alloc, line)? {
        Some(section) => case.sections.push(section)?,
        None => match case.sections.last_mut() {
            Some(section) => append_line(section, line)?,
            None => read_head(alloc, case, line)?,
        },
    }
    Ok(())
}

/// The case that a file has.
pub fn read_case(alloc: Global, text: &str) -> Result<Case> {
    let mut case = Case::new(alloc);
    let lines = text.strip_suffix('\n').context("no LF at its end")?;
    for line in lines.split('\n') {
        read_line(alloc, &mut case, line)?;
    }
    ensure!(!case.commands.is_empty(), "a case without words");
    Ok(case)
}
