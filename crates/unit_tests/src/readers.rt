// What a reader of tokens says of the next one and of pragmas, how deep it lets ifs and cases be nested, and that it keeps a refusal.
ghost use Rattle.std.specs.Prelude.{◌≢◌};
ghost use Rattle.vlsi_base.specs.declared.fault.ReadError.TheVariants.{Memory};

use std::alloc::Global;
use std::test::Fail;
use vhdl_lexer::tokens;
use vhdl_reader::TokenReader;
use vhdl_token::{Sign, Token};
use vlsi_base::{FaultKind, InputFault, LimitKind, Names, ReadError};

/// Tokens on the lines 1 and 4 of 5, and a pragma on each of the lines between them.
static TEXT: &[u8] = b"a\n-- pragma CLOCK ck\n--pragma k v\n<=;\n\n";

#[test]
fn the_next_token(rt: HostRuntime) -> Result<(), Fail> {
    let all = tokens(rt.alloc(), TEXT)?;
    let mut reader = TokenReader::begin(rt.alloc(), &all);
    let mut found = 0u32;
    for line in [1u32, 4, 4] {
        assert_eq!(rt; reader.line(), line);
        let Some(token) = reader.peek() else {
            break;
        };
        let is_wanted = match token {
            Token::Identifier(name) => found == 0 && name.as_bytes() == b"a".as_slice(),
            Token::Sign(Sign::Assign) => found == 1,
            Token::Sign(Sign::Semicolon) => found == 2,
            _ => false,
        };
        assert!(rt; is_wanted, "at token {found}");
        reader.skip();
        found = found.wrapping_add(1);
    }
    assert_eq!(rt; found, 3);
    assert!(rt; reader.peek().is_none());
    assert_eq!(rt; reader.line(), 5);
    Ok(())
}

#[test]
fn pragmas_in_their_order(rt: HostRuntime) -> Result<(), Fail> {
    let all = tokens(rt.alloc(), TEXT)?;
    let reader = TokenReader::begin(rt.alloc(), &all);
    let mut text = Vec::new(rt.alloc());
    for pragma in reader.pragmas().as_slice() {
        text.push(b'0' + (pragma.line % 10) as u8)?;
        text.extend_from_slice(pragma.key.as_bytes())?;
        text.push(b' ')?;
        text.extend_from_slice(pragma.name.as_bytes())?;
        text.push(b'.')?;
    }
    assert_eq!(rt; text.as_slice(), b"2clock ck.3k v.".as_slice());
    Ok(())
}

/// Whether the answer is the refusal of more than 256 parentheses, ifs and cases that are open.
fn is_too_deep(answer: &Result<(), ReadError>) -> bool {
    match answer {
        Err(ReadError::Limit(limit)) => limit.which == LimitKind::Depth && limit.reached == 257,
        _ => false,
    }
}

#[test]
fn ifs_that_are_open(rt: HostRuntime) -> Result<(), Fail> {
    let all = tokens(rt.alloc(), TEXT)?;
    let mut reader = TokenReader::begin(rt.alloc(), &all);
    reader.enter()?;
    reader.leave();
    for _ in 0..256u32 {
        reader.enter()?;
    }
    assert!(rt; reader.peek().is_some());
    for _ in 0..2u32 {
        assert!(rt; is_too_deep(&reader.enter()));
    }
    assert!(rt; reader.peek().is_none());
    Ok(())
}

/// A fault on line 7.
fn fault(alloc: Global) -> ReadError
    ensures { result ≢ Memory }
{
    ReadError::Input(InputFault {
        line: 7,
        kind: FaultKind::Unknown,
        names: Names::new(Vec::new(alloc)),
    })
}

fn is_fault<T>(answer: &Result<T, ReadError>) -> bool {
    match answer {
        Err(ReadError::Input(fault)) => fault.line == 7 && fault.kind == FaultKind::Unknown,
        _ => false,
    }
}

#[test]
fn a_refusal_is_kept(rt: HostRuntime) -> Result<(), Fail> {
    let all = tokens(rt.alloc(), TEXT)?;
    let mut reader = TokenReader::begin(rt.alloc(), &all);
    reader.refuse(fault(rt.alloc()));
    assert!(rt; reader.peek().is_none());
    assert_eq!(rt; reader.line(), 1);
    assert!(rt; is_fault(&reader.enter()));
    assert!(rt; is_fault(&reader.expression()));
    assert!(rt; is_fault(&reader.entity()));
    Ok(())
}
