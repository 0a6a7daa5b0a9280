// Numbers as they are read and written.
use std::test::Fail;
use vlsi_base::{Text, push_u64, read_u64};

static READ: [(&str, Option<u64>); 9] = [
    ("0", Some(0)),
    ("007", Some(7)),
    ("18446744073709551615", Some(u64::MAX)),
    ("18446744073709551616", None),
    ("00000000000000000001", Some(1)),
    ("000000000000000000001", None),
    ("", None),
    ("-1", None),
    ("1 ", None),
];

#[test]
fn numbers_are_read(rt: HostRuntime) {
    for (text, number) in &READ {
        assert_eq!(rt; read_u64(text.as_bytes()), *number, "at {text}");
    }
}

#[test]
fn a_number_is_written(rt: HostRuntime) -> Result<(), Fail> {
    let mut text = Text::from_bytes(rt.alloc(), b"q")?;
    push_u64(rt.alloc(), &mut text, 120)?;
    assert_eq!(rt; text.as_bytes(), b"q120".as_slice());
    Ok(())
}
