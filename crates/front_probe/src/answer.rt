// What is read of a text, as a line.
use std::alloc::{AllocError, Global};
use vhdl_lexer::tokens;
use vhdl_reader::TokenReader;
use vhdl_token::{Keyword, Sign, Token};
use vlsi_base::{FaultKind, InputFault, Name, Names, ReadError, Text, push_u64};

/// What was read: the entity's name, and how many ports, signals and expressions.
#[derive(Drop)]
struct Counts {
    name: Text,
    ports: u64,
    signals: u64,
    expressions: u64,
}

// Passes over what stands before the declarations.
fn pass_to_declarations(reader: &mut TokenReader) {
    for _ in 0..u64::MAX {
        match reader.peek() {
            None => return,
            Some(Token::Keyword(Keyword::Signal)) => return,
            Some(Token::Keyword(Keyword::Begin)) => return,
            Some(_) => reader.skip(),
        }
    }
}

fn syntax(alloc: Global, reader: &TokenReader) -> ReadError {
    ReadError::Input(InputFault {
        line: reader.line(),
        kind: FaultKind::Syntax,
        names: Names::new(Vec::new(alloc)),
    })
}

// Reads the expression behind each `<=`, and says how many there are.
fn expressions(alloc: Global, reader: &mut TokenReader) -> Result<u64, ReadError> {
    let mut count = 0u64;
    for _ in 0..u64::MAX {
        let Some(token) = reader.peek() else {
            break;
        };
        let assigns = matches!(token, Token::Sign(Sign::Assign));
        reader.skip();
        if assigns {
            let _value = reader.expression()?;
            count = count.saturating_add(1);
            match reader.peek() {
                Some(Token::Sign(Sign::Semicolon)) => reader.skip(),
                _ => return Err(syntax(alloc, reader)),
            }
        }
    }
    Ok(count)
}

fn read(alloc: Global, text: &[u8]) -> Result<Counts, ReadError> {
    let tokens = tokens(alloc, text)?;
    let mut reader = TokenReader::begin(alloc, &tokens);
    let entity = reader.entity()?;
    pass_to_declarations(&mut reader);
    let declarations = reader.declarations()?;
    let expressions = expressions(alloc, &mut reader)?;
    let mut ports = 0u64;
    for group in entity.ports.as_slice() {
        ports = ports.saturating_add(group.names.as_slice().len() as u64);
    }
    let mut signals = 0u64;
    for group in declarations.signals.as_slice() {
        signals = signals.saturating_add(group.names.as_slice().len() as u64);
    }
    Ok(Counts {
        name: entity.name.copy(alloc)?,
        ports,
        signals,
        expressions,
    })
}

fn push_name(alloc: Global, line: &mut Text, name: &Name) -> Result<(), AllocError> {
    let text = name.to_text(alloc)?;
    line.append(b" ")?;
    line.append(text.as_bytes())
}

fn push_counts(alloc: Global, line: &mut Text, counts: &Counts) -> Result<(), AllocError> {
    line.append(b"read ")?;
    line.append(counts.name.as_bytes())?;
    for count in [counts.ports, counts.signals, counts.expressions] {
        line.append(b" ")?;
        push_u64(alloc, line, count)?;
    }
    Ok(())
}

fn push_error(alloc: Global, line: &mut Text, error: &ReadError) -> Result<(), AllocError> {
    match error {
        ReadError::Memory => line.append(b"memory"),
        ReadError::Input(fault) => {
            line.append(b"input ")?;
            push_u64(alloc, line, u64::from(fault.line))?;
            line.append(b" ")?;
            line.append(fault.kind.as_str().as_bytes())?;
            for name in fault.names.as_slice() {
                push_name(alloc, line, name)?;
            }
            Ok(())
        }
        ReadError::Limit(limit) => {
            line.append(b"limit ")?;
            line.append(limit.which.as_str().as_bytes())?;
            line.append(b" ")?;
            push_u64(alloc, line, limit.reached)
        }
    }
}

/// The line for a text.
pub fn line(alloc: Global, text: &[u8]) -> Result<Text, AllocError> {
    let mut line = Text::new(Vec::new(alloc));
    match read(alloc, text) {
        Ok(counts) => push_counts(alloc, &mut line, &counts)?,
        Err(error) => push_error(alloc, &mut line, &error)?,
    }
    line.append(b"\n")?;
    Ok(line)
}
