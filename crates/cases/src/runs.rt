// The runs of a case: with no fault, with each of its calls failing, with each file that is read missing, and each with the put failing.

use crate::archive::{Place, Section};
use crate::case::{Call, Case, Deed};
use flow_run::alliance_main;
use std::alloc::{AllocError, Global};
use tool_words::Words;
use vlsi_base::{FileBytes, FileName, Text};
use vlsi_shelf::{CallNumbers, FileMap, MemShelf, MemSink, NoFaultShelf};

// The status of a file or an output that fails.
const FILE: u8 = 7;

/// What goes wrong with the files of a run.
#[derive(Clone, Copy)]
enum Trouble<'a> {
    Nothing,
    /// This call fails; so many come before it.
    Fails(&'a Call, usize),
    /// The file that this call reads isn't there; so many calls come before it.
    Missing(&'a Call, usize),
}

/// A run of a case.
#[derive(Clone, Copy)]
struct Run<'a> {
    case: &'a Case,
    words: &'a str,
    trouble: Trouble<'a>,
    put_fails: bool,
}

/// What a run came to.
#[derive(Clone, Copy)]
struct Outcome<'a> {
    status: u8,
    printed: &'a [u8],
    files: &'a FileMap,
}

impl Run<'_> {
    // Where the files are as they should be, only a product that can't be printed is a failure; a refusal keeps its status.
    fn wanted_status(&self) -> u8 {
        match self.trouble {
            Trouble::Nothing => {
                let is_lost = self.put_fails && !self.case.printed().is_empty();
                if is_lost && self.case.status == 0 {
                    FILE
                } else {
                    self.case.status
                }
            }
            _ => FILE,
        }
    }

    fn wanted_text(&self, alloc: Global) -> Result<String, AllocError> {
        let tool = self.words.split_whitespace().next().unwrap_or("");
        if self.put_fails {
            return Ok(String::new(alloc));
        }
        match self.trouble {
            Trouble::Nothing => String::from_str(alloc, self.case.printed()),
            Trouble::Fails(call, _) => {
                let file = call.file.as_str();
                match call.deed {
                    Deed::Read => format!(in alloc; "{tool}: file: read fault {file}\n"),
                    Deed::Write => format!(in alloc; "{tool}: file: write fault {file}\n"),
                }
            }
            Trouble::Missing(call, _) => {
                let file = call.file.as_str();
                format!(in alloc; "{tool}: file: missing {file}\n")
            }
        }
    }

    // How many of the calls are made before anything goes wrong.
    fn calls(&self) -> usize {
        match self.trouble {
            Trouble::Nothing => self.case.calls.len(),
            Trouble::Fails(_, before) => before,
            Trouble::Missing(_, before) => before,
        }
    }

    // The file that isn't there before the run.
    fn missing(&self) -> &str {
        match self.trouble {
            Trouble::Missing(call, _) => call.file.as_str(),
            _ => "",
        }
    }

    // The number of the call that fails, from 1: where none should, the one behind the last, which the run doesn't make.
    fn failing_call(&self) -> u64 {
        if !self.case.tells_calls {
            return 0;
        }
        let more = if matches!(self.trouble, Trouble::Missing(_, _)) {
            2
        } else {
            1
        };
        (self.calls() as u64).saturating_add(more)
    }
}

// The words of a line, which blanks part.
fn words(alloc: Global, line: &str) -> Result<Words, AllocError> {
    let mut words = Words::new(Vec::new(alloc));
    for word in line.split_whitespace() {
        words.push(Text::from_bytes(alloc, word.as_bytes())?)?;
    }
    Ok(words)
}

// The files before a run.
fn files(alloc: Global, run: &Run) -> Result<FileMap, AllocError> {
    let mut files = FileMap::new(alloc);
    for section in &run.case.sections {
        if let Place::Before(name) = &section.place
            && name.as_str() != run.missing()
        {
            let name = FileName::from_bytes(alloc, name.as_bytes())?;
            let bytes = FileBytes::from_bytes(alloc, section.text.as_bytes())?;
            files.insert(name, bytes)?;
        }
    }
    Ok(files)
}

fn failing(alloc: Global, number: u64) -> Result<CallNumbers, AllocError> {
    let mut numbers = Vec::new(alloc);
    numbers.push(number)?;
    Ok(CallNumbers::new(numbers))
}

// Whether a file has this text, or isn't there where none is wanted.
fn holds(
    alloc: Global,
    files: &FileMap,
    name: &str,
    wanted: Option<&str>,
) -> Result<bool, AllocError> {
    let name = FileName::from_bytes(alloc, name.as_bytes())?;
    Ok(match (files.get(&name), wanted) {
        (Some(found), Some(text)) => found.as_bytes() == text.as_bytes(),
        (None, None) => true,
        _ => false,
    })
}

// The file of a section.
fn file_of(section: &Section) -> &str {
    match &section.place {
        Place::Before(name) => name.as_str(),
        Place::After(name) => name.as_str(),
        Place::Printed => "",
    }
}

// The first file that isn't as the case says.
fn differing_file<'a>(
    alloc: Global,
    run: &Run<'a>,
    files: &FileMap,
) -> Result<Option<&'a str>, AllocError> {
    for section in &run.case.sections {
        let name = file_of(section);
        if !name.is_empty()
            && name != run.missing()
            && !holds(alloc, files, name, run.case.after(name, run.calls()))?
        {
            return Ok(Some(name));
        }
    }
    Ok(None)
}

// Whether this is the text that is wanted; what stands behind one that doesn't end with LF is open.
fn is_wanted(printed: &str, wanted: &str) -> bool {
    if wanted.is_empty() || wanted.ends_with('\n') {
        printed == wanted
    } else {
        printed.strip_prefix(wanted).is_some()
    }
}

// How an outcome differs from what the case says, if it does.
fn difference(alloc: Global, run: &Run, outcome: &Outcome) -> Result<Option<String>, AllocError> {
    let status = outcome.status;
    let printed = str::from_utf8(outcome.printed).unwrap_or("no text");
    let wanted = run.wanted_status();
    if status != wanted {
        return Ok(Some(format!(in alloc;
            "status {status}, wanted {wanted}, printed {printed:?}"
        )?));
    }
    let wanted = run.wanted_text(alloc)?;
    if !is_wanted(printed, wanted.as_str()) {
        return Ok(Some(format!(in alloc; "printed {printed:?}, wanted {wanted:?}")?));
    }
    match differing_file(alloc, run, outcome.files)? {
        Some(name) => Ok(Some(format!(in alloc; "the file {name}")?)),
        None => Ok(None),
    }
}

// The status over files whose calls may fail. It has no contract of its own, so that a run rests on what is run alone.
fn status(alloc: Global, words: &Words, shelf: &mut MemShelf, out: &mut MemSink) -> u8 {
    alliance_main(alloc, words, shelf, out).code()
}

fn status_without_faults(
    alloc: Global,
    words: &Words,
    shelf: &mut NoFaultShelf,
    out: &mut MemSink,
) -> u8 {
    alliance_main(alloc, words, shelf, out).code()
}

fn differs(alloc: Global, run: &Run) -> Result<Option<String>, AllocError> {
    let words = words(alloc, run.words)?;
    let mut shelf = MemShelf::begin(files(alloc, run)?, failing(alloc, run.failing_call())?);
    let put = if run.put_fails { 1 } else { 2 };
    let mut out = MemSink::begin(alloc, failing(alloc, put)?);
    let status = status(alloc, &words, &mut shelf, &mut out);
    let outcome = Outcome {
        status,
        printed: out.bytes(),
        files: shelf.files(),
    };
    difference(alloc, run, &outcome)
}

fn differs_without_faults(alloc: Global, run: &Run) -> Result<Option<String>, AllocError> {
    let words = words(alloc, run.words)?;
    let mut shelf = NoFaultShelf::begin(files(alloc, run)?);
    let mut out = MemSink::begin(alloc, failing(alloc, 0)?);
    let status = status_without_faults(alloc, &words, &mut shelf, &mut out);
    let outcome = Outcome {
        status,
        printed: out.bytes(),
        files: shelf.files(),
    };
    difference(alloc, run, &outcome)
}

// The first difference of a run, or of the same with the put failing.
fn with_and_without_put(alloc: Global, run: Run) -> Result<Option<String>, AllocError> {
    let difference = differs(alloc, &run)?;
    if difference.is_some() {
        return Ok(difference);
    }
    let put_fails = Run {
        put_fails: true,
        ..run
    };
    match differs(alloc, &put_fails)? {
        Some(difference) => Ok(Some(format!(in alloc; "where the put fails: {difference}")?)),
        None => Ok(None),
    }
}

// The first difference of a run in which a call fails, or in which the file that it reads isn't there.
fn with_trouble(
    alloc: Global,
    run: &Run,
    call: &Call,
    before: usize,
) -> Result<Option<String>, AllocError> {
    let fails = Run {
        trouble: Trouble::Fails(call, before),
        ..*run
    };
    let difference = with_and_without_put(alloc, fails)?;
    let has_file = run.case.before(call.file.as_str()).is_some();
    if difference.is_some() || call.deed == Deed::Write || !has_file {
        return Ok(difference);
    }
    let missing = Run {
        trouble: Trouble::Missing(call, before),
        ..*run
    };
    with_and_without_put(alloc, missing)
}

// The first difference of the runs of some words.
fn of_words(alloc: Global, run: Run) -> Result<Option<String>, AllocError> {
    let difference = with_and_without_put(alloc, run)?;
    if difference.is_some() {
        return Ok(difference);
    }
    for (before, call) in run.case.calls.iter().enumerate() {
        if let Some(difference) = with_trouble(alloc, &run, call, before)? {
            let number = before.saturating_add(1);
            return Ok(Some(format!(in alloc; "at call {number}: {difference}")?));
        }
    }
    differs_without_faults(alloc, &run)
}

/// How the first run that differs from what the case says does, if one does.
pub fn first_difference(alloc: Global, case: &Case) -> Result<Option<String>, AllocError> {
    for words in &case.commands {
        let words = words.as_str();
        let run = Run {
            case,
            words,
            trouble: Trouble::Nothing,
            put_fails: false,
        };
        if let Some(difference) = of_words(alloc, run)? {
            return Ok(Some(format!(in alloc; "{words}: {difference}")?));
        }
    }
    Ok(None)
}
