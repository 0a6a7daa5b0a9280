// Nodes and what they read, and the order or the ring that a walk from the least node on finds.
ghost use Rattle.std.specs.Prelude.{◌<◌, length, IsTrue};
ghost use Rattle.std.specs.List.{All};

use bit_order::{Order, order};
use std::alloc::{AllocError, Global};
use std::test::Fail;

fn all_below(nodes: &[u32], count: usize) -> bool
    ensures { IsTrue result → All (λ node. node < count) nodes.now }
{
    nodes.iter().all(|node| (*node as usize) < count)
}

fn are_nodes(reads: &[Vec<u32>], count: usize) -> bool
    ensures { IsTrue result → All (λ nodes. All (λ node. node < count) nodes.items) reads.now }
{
    reads.iter().all(|nodes| all_below(nodes, count))
}

/// A list for each word; each of its letters is the number of a node, a for 0.
fn lists(alloc: Global, text: &[u8]) -> Result<Vec<Vec<u32>>, AllocError> {
    let mut reads = Vec::new(alloc);
    let mut nodes = Vec::new(alloc);
    for letter in text {
        if *letter == b'.' {
            reads.push(nodes)?;
            nodes = Vec::new(alloc);
        } else {
            nodes.push(u32::from(letter.saturating_sub(b'a')))?;
        }
    }
    Ok(reads)
}

fn letters(alloc: Global, first: u8, nodes: &[u32]) -> Result<Vec<u8>, AllocError> {
    let mut text = Vec::new(alloc);
    text.push(first)?;
    for node in nodes {
        text.push(b'a' + (*node % 26) as u8)?;
    }
    Ok(text)
}

/// `<NODES` for an order, `@NODES` for a ring, and nothing where a list has what is no node.
fn answer(alloc: Global, reads: &[Vec<u32>]) -> Result<Vec<u8>, AllocError> {
    if reads.len() > 65536 || !are_nodes(reads, reads.len()) {
        return Ok(Vec::new(alloc));
    }
    match order(alloc, reads)? {
        Order::Sorted(nodes) => letters(alloc, b'<', &nodes),
        Order::Ring(nodes) => letters(alloc, b'@', &nodes),
    }
}

static ROWS: [(&[u8], &[u8]); 13] = [
    (b"", b"<"),
    (b".", b"<a"),
    (b"a.", b"@a"),
    (b"...", b"<abc"),
    (b"b.c..", b"<cba"),
    (b".a.b.", b"<abc"),
    (b"bb.aa.", b"@ab"),
    (b"c..b.", b"<bca"),
    (b"bc.d.d..", b"<dbca"),
    (b"b.cd.b..", b"@bc"),
    (b"b.c.d.b.", b"@bcd"),
    (b".c.d.ce.b.", b"@cd"),
    (b".c.d.ec.b.", b"@bcde"),
];

#[test]
fn nodes_in_order(rt: HostRuntime) -> Result<(), Fail> {
    for (text, want) in &ROWS {
        let reads = lists(rt.alloc(), text)?;
        let made = answer(rt.alloc(), reads.as_slice())?;
        assert_eq!(rt; made.as_slice(), *want, "at {text:?}");
    }
    Ok(())
}

/// A chain of nodes, of which each reads the next.
fn chain(alloc: Global, count: u32) -> Result<Vec<Vec<u32>>, AllocError> {
    let mut reads = Vec::new(alloc);
    for node in 0..count {
        let mut nodes = Vec::new(alloc);
        nodes.push(node.wrapping_add(1))?;
        reads.push(nodes)?;
    }
    reads.push(Vec::new(alloc))?;
    Ok(reads)
}

#[test]
fn a_long_chain(rt: HostRuntime) -> Result<(), Fail> {
    let reads = chain(rt.alloc(), 16383)?;
    let made = answer(rt.alloc(), reads.as_slice())?;
    assert_eq!(rt; made.as_slice().len(), 16385);
    Ok(())
}
