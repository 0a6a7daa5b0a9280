// Texts and what they are cut into, written by hand from the language's rules.
use std::alloc::{AllocError, Global};
use std::test::Fail;
use vhdl_lexer::tokens;
use vhdl_token::{Token, Tokens};
use vlsi_base::{FaultKind, LimitKind, Pragma, Radix, ReadError};

fn put_number(alloc: Global, out: &mut Vec<u8>, n: u64) -> Result<(), AllocError> {
    let digits = n.to_string(alloc)?;
    out.extend_from_slice(digits.as_bytes())
}

/// A reserved word as `#word`, an identifier as itself, a sign and a bit as they are spelled, a number as `=number`,
/// a text in quotes, a bit string with the letter of its base.
fn put_token(alloc: Global, out: &mut Vec<u8>, token: &Token) -> Result<(), AllocError> {
    match token {
        Token::Identifier(name) => out.extend_from_slice(name.as_bytes()),
        Token::Keyword(word) => {
            out.push(b'#')?;
            out.extend_from_slice(word.as_str().as_bytes())
        }
        Token::Number(n) => {
            out.push(b'=')?;
            put_number(alloc, out, u64::from(*n))
        }
        Token::Bit(bit) => out.extend_from_slice(if *bit { b"'1'" } else { b"'0'" }),
        Token::Quoted(text) => put_quoted(out, b"", text.as_bytes()),
        Token::BitString(base, digits) => {
            let letter: &[u8] = match base {
                Radix::Binary => b"b",
                Radix::Octal => b"o",
                Radix::Hexadecimal => b"x",
            };
            put_quoted(out, letter, digits.as_bytes())
        }
        Token::Digits(digits) => out.extend_from_slice(digits.as_bytes()),
        Token::Sign(sign) => out.extend_from_slice(sign.as_str().as_bytes()),
    }
}

fn put_quoted(out: &mut Vec<u8>, letter: &[u8], inside: &[u8]) -> Result<(), AllocError> {
    out.extend_from_slice(letter)?;
    out.push(b'"')?;
    out.extend_from_slice(inside)?;
    out.push(b'"')?;
    Ok(())
}

/// `%LINE KEY NAME `
fn put_pragma(alloc: Global, out: &mut Vec<u8>, pragma: &Pragma) -> Result<(), AllocError> {
    out.push(b'%')?;
    put_number(alloc, out, u64::from(pragma.line))?;
    out.push(b' ')?;
    out.extend_from_slice(pragma.key.as_bytes())?;
    out.push(b' ')?;
    out.extend_from_slice(pragma.name.as_bytes())?;
    out.push(b' ')?;
    Ok(())
}

/// `LINE:TOKEN ` for each token, then the pragmas, then `$LINE`.
fn put_tokens(alloc: Global, out: &mut Vec<u8>, all: &Tokens) -> Result<(), AllocError> {
    for placed in all.items.as_slice() {
        put_number(alloc, out, u64::from(placed.line))?;
        out.push(b':')?;
        put_token(alloc, out, &placed.token)?;
        out.push(b' ')?;
    }
    for pragma in all.pragmas.as_slice() {
        put_pragma(alloc, out, pragma)?;
    }
    out.push(b'$')?;
    put_number(alloc, out, u64::from(all.last_line))
}

/// `!bad LINE`, `!ident NUMBER` or `!number NUMBER`.
fn put_refusal(alloc: Global, out: &mut Vec<u8>, error: &ReadError) -> Result<(), AllocError> {
    match error {
        ReadError::Memory => Err(AllocError),
        ReadError::Input(fault) => {
            if fault.kind == FaultKind::BadByte && fault.names.as_slice().is_empty() {
                out.extend_from_slice(b"!bad ")?;
            }
            put_number(alloc, out, u64::from(fault.line))
        }
        ReadError::Limit(limit) => {
            out.extend_from_slice(match limit.which {
                LimitKind::Ident => b"!ident ",
                LimitKind::Number => b"!number ",
                _ => b"!other ",
            })?;
            put_number(alloc, out, limit.reached)
        }
    }
}

fn shown(alloc: Global, text: &[u8]) -> Result<Vec<u8>, AllocError> {
    let mut out = Vec::new(alloc);
    match tokens(alloc, text) {
        Ok(all) => put_tokens(alloc, &mut out, &all)?,
        Err(error) => put_refusal(alloc, &mut out, &error)?,
    }
    Ok(out)
}

static ROWS: [(&[u8], &[u8]); 68] = [
    (b"", b"$1"),
    (b"\n", b"$1"),
    (b"\n\n", b"$2"),
    (b"a", b"1:a $1"),
    (b"a\n", b"1:a $1"),
    (b"a\n ", b"1:a $2"),
    (b"a\n\nb", b"1:a 3:b $3"),
    (b"a\r\nb\r\n", b"1:a 2:b $2"),
    (b"Ab_9 aND ", b"1:ab_9 1:#and $1"),
    (
        b"and1 an_d nand bit_vector",
        b"1:and1 1:an_d 1:#nand 1:#bit_vector $1",
    ),
    (
        b"after architecture WOR_VECTOR xor",
        b"1:#after 1:#architecture 1:#wor_vector 1:#xor $1",
    ),
    (b"a<=b", b"1:a 1:<= 1:b $1"),
    (b"a<b>c", b"1:a 1:< 1:b 1:> 1:c $1"),
    (b"a:=b", b"1:a 1::= 1:b $1"),
    (b"a : = b", b"1:a 1:: 1:= 1:b $1"),
    (b"<=>", b"1:<= 1:> $1"),
    (b"==>", b"1:= 1:=> $1"),
    (b"/==", b"1:/= 1:= $1"),
    (b"(),;:&|+?*", b"1:( 1:) 1:, 1:; 1:: 1:& 1:| 1:+ 1:? 1:* $1"),
    (b"/", b"!bad 1"),
    (b"a\n/ =", b"!bad 2"),
    (b"-", b"!bad 1"),
    (b"a - b", b"!bad 1"),
    (b"a.b", b"!bad 1"),
    (b"_a", b"!bad 1"),
    (b"a\x0bb", b"!bad 1"),
    (b"a\n\n\xc8", b"!bad 3"),
    (b"-- \xc8\xff\"'\na", b"2:a $2"),
    (b"a--b", b"1:a $1"),
    (b"a--b\nc", b"1:a 2:c $2"),
    (b"--\n--", b"$2"),
    (b"--a--\r\n-", b"!bad 2"),
    (b"---", b"$1"),
    (b"'0''1'", b"1:'0' 1:'1' $1"),
    (b"'2'", b"1:' 1:=2 1:' $1"),
    (b"a'0'", b"1:a 1:'0' $1"),
    (b"ck'stable", b"1:ck 1:' 1:stable $1"),
    (b"'0", b"1:' 1:=0 $1"),
    (b"'d'", b"1:' 1:d 1:' $1"),
    (b"''0'", b"1:' 1:'0' $1"),
    (b"'0'0'", b"1:'0' 1:=0 1:' $1"),
    (b"\"01\"", b"1:\"01\" $1"),
    (b"\"\"\"a\"", b"1:\"\" 1:\"a\" $1"),
    (b"\"a -- b'\"c", b"1:\"a -- b'\" 1:c $1"),
    (b"\"\xc8\t\r\"", b"1:\"\xc8\t\r\" $1"),
    (b"a \"bc", b"!bad 1"),
    (b"a\n\"b\nc\"", b"!bad 2"),
    (
        b"b\"01\" O\"17\" X\"fF\"",
        b"1:b\"01\" 1:o\"17\" 1:x\"fF\" $1",
    ),
    (b"x\"0g\"", b"1:x\"0g\" $1"),
    (b"x\"\"", b"1:x\"\" $1"),
    (b"x \"0\"", b"1:x 1:\"0\" $1"),
    (b"ab\"0\"", b"1:ab 1:\"0\" $1"),
    (b"d\"0\"", b"1:d 1:\"0\" $1"),
    (b"x\"0\n\"", b"!bad 1"),
    (b"12ab", b"1:=12 1:ab $1"),
    (b"0 007 4294967295", b"1:=0 1:=7 1:=4294967295 $1"),
    (b"4294967296", b"!number 4294967296"),
    (b"00000000000000000000004294967295", b"1:=4294967295 $1"),
    (b"18446744073709551615", b"!number 18446744073709551615"),
    (b"18446744073709551616", b"!number 18446744073709551615"),
    (
        b"99999999999999999999999999999999 /",
        b"!number 18446744073709551615",
    ),
    (b"/ 4294967296", b"!bad 1"),
    (
        b"aaaaaaaaaaaaaaaaaaaaaaaaaaaaaaaaaaaaaaaaaaaaaaaaaaaaaaaaaaaaaaaA",
        b"1:aaaaaaaaaaaaaaaaaaaaaaaaaaaaaaaaaaaaaaaaaaaaaaaaaaaaaaaaaaaaaaaa $1",
    ),
    (
        b"aaaaaaaaaaaaaaaaaaaaaaaaaaaaaaaaaaaaaaaaaaaaaaaaaaaaaaaaaaaaaaaaa",
        b"!ident 65",
    ),
    (
        b"a\n-- Pragma CURRENT_STATE  cs\t\r\n--pragma clock CK\n--\tPRAGMA x y",
        b"1:a %2 current_state cs %3 clock ck %4 x y $4",
    ),
    (
        b"-- pragma a\n-- pragma a b c\n-- pragmas a b\n-- pragma 1a b\n-- pragma a b.\n-- pragma a in\npragma",
        b"7:pragma $7",
    ),
    (b"-- pragma a b -- c\n--pragmaa b\n-- - pragma a b", b"$3"),
    (
        b"-- pragma k nnnnnnnnnnnnnnnnnnnnnnnnnnnnnnnnnnnnnnnnnnnnnnnnnnnnnnnnnnnnnnnnn\n--pragma k v",
        b"%2 k v $2",
    ),
];

#[test]
fn texts_are_cut_by_the_rules(rt: HostRuntime) -> Result<(), Fail> {
    for (text, want) in &ROWS {
        let made = shown(rt.alloc(), text)?;
        assert_eq!(rt; made.as_slice(), *want, "at {text:?}");
    }
    Ok(())
}
