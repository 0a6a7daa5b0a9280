// The reader of paths.
ghost use Rattle.std.specs.Prelude.{◌≡◌, ◌≤◌, ◌<◌, ◌+◌, ◌^◌, true, length, IfErr, IfOk, IfSome, IsNone, OnOk};
ghost use Rattle.std.specs.List.{list_all};
ghost use Rattle.vlsi_base.specs.Lines.{without_return};
ghost use Rattle.lexer_base.specs.Bytes.{is_blank, is_in_word};
ghost use Rattle.path_io.specs.PathText.{fault_on, is_blank_line, is_identifier, limit_of, IsNamed, IsPathText, IsPathTextRefusal, IsRefusedLine, PushesName};

use lexer_base::{MOST_IDENTIFIER_BYTES, is_blank, is_in_word, lower};
use std::alloc::{AllocError, Global};
use vlsi_base::{
    FaultKind, InputFault, Limit, LimitKind, Lines, MOST_SOURCE_BYTES, Names, ReadError, Text,
    without_return,
};

/// The names of a path in the order of the file, in lower case; the line of each, counted from 1; and the number of the last line,
/// which is 1 in a file of no bytes.
#[derive(Drop)]
pub struct PathFile {
    pub names: Vec<Text>,
    pub lines: Vec<u32>,
    pub last: u32,
}

fn fault(alloc: Global, line: u32, kind: FaultKind) -> ReadError
    ensures { result ≡ fault_on line kind }
{
    ReadError::Input(InputFault {
        line,
        kind,
        names: Names::new(Vec::new(alloc)),
    })
}

fn limit(which: LimitKind, reached: u64) -> ReadError
    ensures { result ≡ limit_of which reached }
{
    ReadError::Limit(Limit { which, reached })
}

// Whether a line has spaces and tabs alone.
fn is_blank_line(text: &[u8]) -> bool
    ensures { result ≡ is_blank_line text.now }
{
    text.iter().all(|byte| is_blank(*byte))
}

fn all_in_word(text: &[u8]) -> bool
    ensures { result ≡ list_all is_in_word text.now }
{
    text.iter().all(|byte| is_in_word(*byte))
}

// Whether these are a letter, then letters, digits and underscores.
fn is_identifier(text: &[u8]) -> bool
    ensures { result ≡ is_identifier text.now }
{
    if text.is_empty() || !text[0].is_ascii_alphabetic() {
        return false;
    }
    all_in_word(text)
}

// The name on a line, if it isn't blank.
fn read_line(alloc: Global, line: &[u8], number: u32) -> Result<Option<Text>, ReadError>
    ensures some { IfOk result (λ o. IfSome o (λ name. IsNamed line.now name)) }
    ensures none { IfOk result (λ o. IsNone o → is_blank_line (without_return line.now) ≡ true) }
    ensures refused { IfErr result (λ e. IsRefusedLine number line.now e) }
{
    let text = without_return(line);
    if is_blank_line(text) {
        return Ok(None);
    }
    if !is_identifier(text) {
        return Err(fault(alloc, number, FaultKind::Syntax));
    }
    if text.len() > MOST_IDENTIFIER_BYTES {
        return Err(limit(LimitKind::Ident, text.len() as u64));
    }
    Ok(Some(lower(alloc, text)?))
}

/// Reads a path: each line has one identifier, a letter and then letters, digits and underscores, or is blank, with spaces and tabs
/// alone. A line ends with LF, and a CR at its end is dropped. Reserved words are identifiers here.
///
/// It is refused by `Limit` of `File` with 1,048,577 reached, where it has more than 1,048,576 bytes; else at the first line at fault,
/// by `Syntax` where it is neither blank nor an identifier, and by `Limit` of `Ident` where that has more than 64 bytes. Memory goes by
/// the names, and time by the bytes.
pub fn read_path(alloc: Global, bytes: &[u8]) -> Result<PathFile, ReadError>
    ensures read { IfOk result (λ f. IsPathText bytes.now f) }
    ensures refused { IfErr result (λ e. IsPathTextRefusal bytes.now e) }
{
    if bytes.len() > MOST_SOURCE_BYTES {
        return Err(limit(LimitKind::File, MOST_SOURCE_BYTES as u64 + 1));
    }
    read_lines(alloc, bytes)
}

// The names on the lines of a text.
fn read_lines(alloc: Global, bytes: &[u8]) -> Result<PathFile, ReadError>
    requires { length bytes.now ≤ MOST_SOURCE_BYTES }
    ensures read { IfOk result (λ f. IsPathText bytes.now f) }
    ensures refused { IfErr result (λ e. IsPathTextRefusal bytes.now e) }
{
    let mut file = PathFile {
        names: Vec::new(alloc),
        lines: Vec::new(alloc),
        last: 0,
    };
    let mut lines = Lines::new(bytes);
    while let Some(line) = lines.next_line() {
        file.last += 1;
        match read_line(alloc, line, file.last) {
            Ok(Some(name)) => push_name(&mut file, name)?,
            Ok(None) => {}
            Err(error) => return Err(error),
        }
    }
    file.last = file.last.max(1);
    Ok(file)
}

// Puts a name of the last line behind the others.
fn push_name(file: &mut PathFile, name: Text) -> Result<(), AllocError>
    ensures { OnOk result (PushesName file.old name file.new) }
{
    file.names.push(name)?;
    file.lines.push(file.last)?;
    Ok(())
}
