// Ports by their names.
ghost use Rattle.std.specs.Prelude.{◌≡◌, ◌&&◌, Some, None};
ghost use Rattle.std.specs.List.{list_any};
ghost use Rattle.machine_core.specs.Named.{is_same_name};
ghost use Rattle.pat_io.specs.Known.{is_same_dir, is_of_port};
ghost use Rattle.pat_io.specs.Fitting.{is_port};

use pat_text::ParsedColumn;
use std::alloc::{AllocError, Global};
use vlsi_base::{Dir, NameIndex, Port};

/// Where a port bit stands, by its name, and where one of a text stands.
#[derive(Drop)]
pub struct Index<'a> {
    bits: NameIndex<'a>,
    texts: NameIndex<'a>,
}

impl<'a> Index<'a> {
    /// The index of some ports. It takes memory for two entries a port bit.
    pub fn of(alloc: Global, ports: &'a [Port]) -> Result<Index<'a>, AllocError> {
        let mut bits = NameIndex::new(alloc);
        let mut texts = NameIndex::new(alloc);
        for (place, port) in ports.iter().enumerate() {
            let text = port.name.text.as_bytes();
            bits.insert(text, port.name.bit, place)?;
            texts.insert(text, None, place)?;
        }
        Ok(Index { bits, texts })
    }

    fn find_bit(&self, text: &'a [u8], bit: Option<u32>) -> Option<usize> {
        self.bits.find(text, bit)
    }

    fn find_text(&self, text: &'a [u8]) -> Option<usize> {
        self.texts.find(text, None)
    }
}

/// Whether two directions are the same.
pub fn is_same_dir(a: Dir, b: Dir) -> bool
    ensures { result ≡ is_same_dir a b }
{
    match (a, b) {
        (Dir::In, Dir::In) => true,
        (Dir::Out, Dir::Out) => true,
        _ => false,
    }
}

fn is_of_port(column: &ParsedColumn, port: &Port) -> bool
    ensures { result ≡ is_of_port column.now port.now }
{
    port.name.text.as_bytes() == column.name.as_bytes() && is_same_dir(port.dir, column.dir)
}

fn is_port_bit(port: &Port, text: &[u8], bit: Option<u32>, dir: Dir) -> bool
    ensures { result ≡ (is_same_name port.now.name (record { text = text.now; bit = bit }) && is_same_dir port.now.dir dir) }
{
    port.name.text.as_bytes() == text && port.name.bit == bit && is_same_dir(port.dir, dir)
}

fn walk_texts(ports: &[Port], column: &ParsedColumn) -> bool
    ensures { result ≡ list_any (is_of_port column.now) ports.now }
{
    ports.iter().any(|port| is_of_port(column, port))
}

fn walk_bits(ports: &[Port], text: &[u8], bit: Option<u32>, dir: Dir) -> bool
    ensures { result ≡ is_port ports.now dir (record { text = text.now; bit = bit }) }
{
    ports.iter().any(|port| is_port_bit(port, text, bit, dir))
}

/// Whether some port bit has the name and the direction of a column. What the index says is looked at; where that isn't
/// it, all ports are.
pub fn has_text<'a>(index: &Index<'a>, ports: &[Port], column: &'a ParsedColumn) -> bool
    ensures { result ≡ list_any (is_of_port column.now) ports.now }
{
    if let Some(place) = index.find_text(column.name.as_bytes()) {
        if place < ports.len() && is_of_port(column, &ports[place]) {
            return true;
        }
    }
    walk_texts(ports, column)
}

/// Whether a bit is a port bit of the direction. What the index says is looked at; where that isn't it, all ports are.
pub fn has_bit<'a>(
    index: &Index<'a>,
    ports: &[Port],
    text: &'a [u8],
    bit: Option<u32>,
    dir: Dir,
) -> bool
    ensures { result ≡ is_port ports.now dir (record { text = text.now; bit = bit }) }
{
    if let Some(place) = index.find_bit(text, bit) {
        if place < ports.len() && is_port_bit(&ports[place], text, bit, dir) {
            return true;
        }
    }
    walk_bits(ports, text, bit, dir)
}
