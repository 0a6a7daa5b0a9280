// Shelves and sinks by themselves, where a run of a tool shows nothing of them.
use std::alloc::{AllocError, Global};
use std::test::Fail;
use vlsi_base::{FileBytes, FileName};
use vlsi_shelf::{
    CallNumbers, DirShelf, FileMap, MemShelf, MemSink, OutSink, Shelf, ShelfError, Sink, SinkError,
};

fn failing(alloc: Global, call: u64) -> Result<CallNumbers, AllocError> {
    let mut numbers = Vec::new(alloc);
    numbers.push(call)?;
    Ok(CallNumbers::new(numbers))
}

/// One file of ten bytes.
fn one_file(alloc: Global, name: &FileName) -> Result<FileMap, AllocError> {
    let mut files = FileMap::new(alloc);
    files.insert(
        name.copy(alloc)?,
        FileBytes::from_bytes(alloc, b"0123456789")?,
    )?;
    Ok(files)
}

#[test]
fn a_call_that_fails_changes_nothing(rt: HostRuntime) -> Result<(), Fail> {
    let alloc = rt.alloc();
    let name = FileName::from_bytes(alloc, b"a")?;
    let mut shelf = MemShelf::begin(one_file(alloc, &name)?, failing(alloc, 1)?);
    let failed = shelf.write(alloc, &name, b"x");
    assert!(rt; matches!(failed, Err(ShelfError::Failed)));
    let first = shelf.read(alloc, &name, 3)?;
    assert_eq!(rt; first.as_bytes(), b"0123".as_slice());
    Ok(())
}

#[test]
fn a_put_that_fails_puts_nothing(rt: HostRuntime) -> Result<(), Fail> {
    let mut sink = MemSink::begin(rt.alloc(), failing(rt.alloc(), 2)?);
    sink.put(b"one")?;
    assert!(rt; matches!(sink.put(b"two"), Err(SinkError::Failed)));
    sink.put(b" three")?;
    assert_eq!(rt; sink.bytes(), b"one three".as_slice());
    Ok(())
}

#[test]
fn a_name_that_is_no_text(rt: HostRuntime) -> Result<(), Fail> {
    let alloc = rt.alloc();
    let name = FileName::from_bytes(alloc, &[0xff, 0xfe])?;
    let mut shelf = DirShelf::begin(&rt);
    let read = shelf.read(alloc, &name, 9);
    assert!(rt; matches!(read, Err(ShelfError::Missing)));
    assert!(rt; matches!(shelf.write(alloc, &name, b"x"), Err(ShelfError::Failed)));
    Ok(())
}

#[test]
fn nothing_is_put(rt: HostRuntime) -> Result<(), Fail> {
    let mut sink = OutSink::begin(&rt);
    sink.put(b"")?;
    Ok(())
}
