// Texts and lists give back what they were made of.
use std::test::Fail;
use sym_geom::{Item, Items};
use vlsi_base::{Listed, Text};

#[test]
fn bytes_are_given_back(rt: HostRuntime) -> Result<(), Fail> {
    let bytes = Text::from_bytes(rt.alloc(), b"ab")?.into_bytes();
    assert_eq!(rt; bytes.as_slice(), b"ab".as_slice());
    Ok(())
}

#[test]
fn items_are_given_back(rt: HostRuntime) -> Result<(), Fail> {
    let alloc = rt.alloc();
    let numbers = Listed::new(vec![in alloc; 3u32, 1, 2]?).into_vec();
    assert_eq!(rt; numbers.as_slice(), [3, 1, 2].as_slice());
    let mut items = Items::new(Vec::new(alloc));
    items.push(Item::Remark(Text::from_bytes(alloc, b"ab")?))?;
    let items = items.into_vec();
    assert_eq!(rt; items.as_slice().len(), 1);
    let is_there = match items.as_slice().first() {
        Some(Item::Remark(text)) => text.as_bytes() == b"ab".as_slice(),
        _ => false,
    };
    assert!(rt; is_there);
    Ok(())
}
