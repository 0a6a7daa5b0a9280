// The nodes that a search has reached.
ghost use Rattle.std.specs.Prelude.{◌≡◌, ◌≢◌, ℕ, ◌+◌, ◌%◌, ◌<◌, ◌≤◌, ◌⊎◌, IfNone, IfOk, IfSome, length, slice_index, slice_set};
ghost use Rattle.grid_core.specs.Numbers.{nodes};
ghost use Rattle.nero_maze.specs.Hulls.{far};
ghost use Rattle.nero_maze.specs.Levels.{IsSource};
ghost use Rattle.nero_maze.specs.Search.{IsRoom, IsField, IsOwn, IsIdle, Kept, Grown, IsSpread, reserved_in, words_in};

use crate::hull::{Hull, far_from};
use crate::penalties::Ties;
use crate::trace::is_free;
use crate::way::{Place, beside, number_of_place, place_of, weight_of};
use grid_core::{Grid, NOBODY};
use std::alloc::{AllocError, Global};

/// The mark of the node at which a search begins; other marks are one more than the way by which the node was reached.
pub(crate) const START: u8 = 5;
/// What is added to the mark of a node that was reached at this level of cost, as long as another way of this cost may take its place.
pub(crate) const FRESH: u8 = 8;

/// The grid, the owners of its nodes, and what is not 0 where a node is in a tree.
#[derive(Drop)]
pub(crate) struct Room {
    pub(crate) grid: Grid,
    pub(crate) owners: Vec<u32>,
    pub(crate) links: Vec<u8>,
}

/// For whom nodes are free, by a word for each: its owner; or, where a search leads past trees, its owner if it is reserved for that one,
/// and else `NOBODY`.
#[derive(Clone, Copy)]
pub(crate) struct Words<'w> {
    pub(crate) owners: &'w Vec<u32>,
    pub(crate) reserved: &'w Vec<bool>,
    pub(crate) past: bool,
}

/// Where a net may go, over the nodes of the grid whose word is the net's own or `NOBODY`, and the hull to which it goes.
#[derive(Clone, Copy)]
pub(crate) struct Field<'w> {
    pub(crate) grid: Grid,
    pub(crate) hull: Hull,
    pub(crate) words: Words<'w>,
    pub(crate) net: u32,
}

/// For whom a node is reserved.
pub(crate) fn reserved_word(owners: &Vec<u32>, reserved: &Vec<bool>, node: u32) -> u32
    requires size { length reserved.now.items ≡ length owners.now.items }
    requires node { node < length owners.now.items }
    ensures { result ≡ slice_index (reserved_in owners.now.items reserved.now.items) node }
{
    let flag = reserved[node as usize];
    let owner = owners[node as usize];
    if flag { owner } else { NOBODY }
}

/// The word of a node.
fn word_at(field: &Field, node: u32) -> u32
    requires field { IsField field.now }
    requires node { node < nodes field.now.grid }
    ensures { result ≡ slice_index (words_in field.now.words) node }
{
    let words = field.words;
    if words.past {
        reserved_word(words.owners, words.reserved, node)
    } else {
        words.owners[node as usize]
    }
}

/// Nodes that got a mark, in the order in which they did, and for each node of the grid its mark or 0.
#[derive(Drop)]
pub(crate) struct Marked {
    pub(crate) order: Vec<u32>,
    pub(crate) marks: Vec<u8>,
    pub(crate) count: usize,
}

/// What a search has reached: nodes in the order in which they got a mark, for each node of the grid its mark or 0, and the sums of
/// penalties that decide between ways of one cost.
#[derive(Drop)]
pub(crate) struct Frontier {
    pub(crate) order: Vec<u32>,
    pub(crate) marks: Vec<u8>,
    pub(crate) count: usize,
    pub(crate) ties: Ties,
}

/// A zero for each node.
pub(crate) fn zeros(alloc: Global, nodes: usize) -> Result<Vec<u8>, AllocError>
    ensures size { IfOk result (λ zeros. length zeros.items ≡ nodes) }
    ensures zero { IfOk result (λ zeros. (v : ℕ) → slice_index zeros.items v ≡ 0) }
{
    vec![in alloc; 0; nodes]
}

/// No node has a mark yet. Takes five bytes for each of so many nodes.
pub(crate) fn unmarked(alloc: Global, nodes: usize) -> Result<Marked, AllocError>
    ensures idle { IfOk result (λ m. IsIdle m.order.items m.marks.items nodes) }
    ensures count { IfOk result (λ m. m.count ≡ 0) }
{
    Ok(Marked {
        order: vec![in alloc; 0; nodes]?,
        marks: zeros(alloc, nodes)?,
        count: 0,
    })
}

/// Gives a node without a mark one. Takes no memory, since no node is there twice.
pub(crate) fn push(marked: &mut Marked, node: u32, mark: u8)
    requires kept { Kept marked.old.order.items marked.old.marks.items marked.old.count }
    requires below { node < length marked.old.marks.items }
    requires unmarked { slice_index marked.old.marks.items node ≡ 0 }
    requires mark { 0 < mark }
    ensures kept { Kept marked.new.order.items marked.new.marks.items marked.new.count }
    ensures order { marked.new.order.items ≡ slice_set marked.old.order.items marked.old.count node }
    ensures marks { marked.new.marks.items ≡ slice_set marked.old.marks.items node mark }
    ensures count { marked.new.count ≡ marked.old.count + 1 }
{
    marked.marks[node as usize] = mark;
    marked.order[marked.count] = node;
    marked.count += 1;
}

/// A part of the order.
#[derive(Clone, Copy, Drop)]
pub(crate) struct Span {
    pub(crate) from: usize,
    pub(crate) to: usize,
}

/// Gives a node that was reached at this level another way of the same cost, if its sum of penalties is less.
fn prefer(frontier: &mut Frontier, node: u32, mark: u8, sum: u16)
    requires kept { Kept frontier.old.order.items frontier.old.marks.items frontier.old.count }
    requires below { node < length frontier.old.marks.items }
    requires fresh { 8 < slice_index frontier.old.marks.items node }
    requires mark { 8 < mark }
    ensures kept { Kept frontier.new.order.items frontier.new.marks.items frontier.new.count }
    ensures order { frontier.new.order.items ≡ frontier.old.order.items }
    ensures count { frontier.new.count ≡ frontier.old.count }
    ensures marks { (frontier.new.marks.items ≡ frontier.old.marks.items) ⊎ (frontier.new.marks.items ≡ slice_set frontier.old.marks.items node mark) }
{
    if sum < frontier.ties.sum(node) {
        frontier.ties.set(node, sum);
        frontier.marks[node as usize] = mark;
    }
}

/// An entry, where it stands, and by how much the bound and the cost of ways on from it are to rise. `reach` is its bound and this.
#[derive(Clone, Copy, Drop)]
pub(crate) struct Source {
    pub(crate) at: usize,
    pub(crate) node: u32,
    pub(crate) place: Place,
    pub(crate) rise: u64,
    pub(crate) reach: u64,
}

/// Marks the neighbour of an entry on a way, where the sum rises so, and it is free and has no mark, or one of this level and a greater
/// sum of penalties.
fn visit(field: &Field, frontier: &mut Frontier, source: &Source, way: u8)
    requires field { IsField field.now }
    requires size { length frontier.old.marks.items ≡ nodes field.now.grid }
    requires kept { Kept frontier.old.order.items frontier.old.marks.items frontier.old.count }
    requires source { IsSource field.now frontier.old.order.items source.now }
    requires at { source.now.at < frontier.old.count }
    requires way { way < 4 }
    ensures size { length frontier.new.marks.items ≡ nodes field.now.grid }
    ensures kept { Kept frontier.new.order.items frontier.new.marks.items frontier.new.count }
    ensures grown { Grown field.now.grid (words_in field.now.words) field.now.net (far field.now.grid field.now.hull) source.now.rise
        source.now.at (source.now.at + 1)
        frontier.old.order.items frontier.old.marks.items frontier.old.count
        frontier.new.order.items frontier.new.marks.items frontier.new.count }
    ensures spread { IsSpread field.now.grid (words_in field.now.words) field.now.net (far field.now.grid field.now.hull) source.now.rise
        frontier.old.order.items frontier.new.marks.items source.now.at way }
{
    let Some(place) = beside(&field.grid, source.place, way) else {
        return;
    };
    let far = far_from(&field.hull, place);
    if weight_of(way) + far != source.reach {
        return;
    }
    let to = number_of_place(&field.grid, place);
    let owner = word_at(field, to);
    if !is_free(owner, field.net) {
        return;
    }
    let known = frontier.marks[to as usize];
    let sum = frontier.ties.sum_on(source.node, to);
    if known > FRESH {
        prefer(frontier, to, way + 1 + FRESH, sum);
        return;
    }
    if known != 0 {
        return;
    }
    frontier.ties.set(to, sum);
    frontier.marks[to as usize] = way + 1 + FRESH;
    frontier.order[frontier.count] = to;
    frontier.count += 1;
}

/// What `visit` needs to know of an entry.
fn source_at(field: &Field, frontier: &Frontier, at: usize, rise: u64) -> Source
    requires field { IsField field.now }
    requires size { length frontier.now.marks.items ≡ nodes field.now.grid }
    requires kept { Kept frontier.now.order.items frontier.now.marks.items frontier.now.count }
    requires at { at < frontier.now.count }
    requires rise { rise < 7 }
    ensures source { IsSource field.now frontier.now.order.items result }
    ensures at { result.at ≡ at }
    ensures rise { result.rise ≡ rise }
{
    let node = frontier.order[at];
    let place = place_of(&field.grid, node);
    Source {
        at,
        node,
        place,
        rise,
        reach: rise + far_from(&field.hull, place),
    }
}

/// Marks the free neighbours of an entry at which the sum rises so.
fn expand_one(field: &Field, frontier: &mut Frontier, at: usize, rise: u64)
    requires field { IsField field.now }
    requires size { length frontier.old.marks.items ≡ nodes field.now.grid }
    requires kept { Kept frontier.old.order.items frontier.old.marks.items frontier.old.count }
    requires at { at < frontier.old.count }
    requires rise { rise < 7 }
    ensures size { length frontier.new.marks.items ≡ nodes field.now.grid }
    ensures kept { Kept frontier.new.order.items frontier.new.marks.items frontier.new.count }
    ensures grown { Grown field.now.grid (words_in field.now.words) field.now.net (far field.now.grid field.now.hull) rise at (at + 1)
        frontier.old.order.items frontier.old.marks.items frontier.old.count
        frontier.new.order.items frontier.new.marks.items frontier.new.count }
    ensures spread { (k : ℕ) → k < 4
        → IsSpread field.now.grid (words_in field.now.words) field.now.net (far field.now.grid field.now.hull) rise
        frontier.old.order.items frontier.new.marks.items at k }
{
    let source = source_at(field, frontier, at, rise);
    for way in 0..4u8 {
        visit(field, frontier, &source, way);
    }
}

/// Marks the free neighbours of some entries at which the sum rises so.
pub(crate) fn expand(field: &Field, frontier: &mut Frontier, span: Span, rise: u64)
    requires field { IsField field.now }
    requires size { length frontier.old.marks.items ≡ nodes field.now.grid }
    requires kept { Kept frontier.old.order.items frontier.old.marks.items frontier.old.count }
    requires range { span.from ≤ span.to }
    requires to { span.to ≤ frontier.old.count }
    requires rise { rise < 7 }
    ensures size { length frontier.new.marks.items ≡ nodes field.now.grid }
    ensures kept { Kept frontier.new.order.items frontier.new.marks.items frontier.new.count }
    ensures grown { Grown field.now.grid (words_in field.now.words) field.now.net (far field.now.grid field.now.hull) rise span.from span.to
        frontier.old.order.items frontier.old.marks.items frontier.old.count
        frontier.new.order.items frontier.new.marks.items frontier.new.count }
    ensures spread { (j k : ℕ) → span.from ≤ j → j < span.to → k < 4
        → IsSpread field.now.grid (words_in field.now.words) field.now.net (far field.now.grid field.now.hull) rise
        frontier.old.order.items frontier.new.marks.items j k }
{
    for at in span.from..span.to {
        expand_one(field, frontier, at, rise);
    }
}

/// An entry keeps the way by which it was reached.
pub(crate) fn settle(frontier: &mut Frontier, at: usize)
    requires kept { Kept frontier.old.order.items frontier.old.marks.items frontier.old.count }
    requires at { at < frontier.old.count }
    requires live { slice_index frontier.old.marks.items (slice_index frontier.old.order.items at) % 8 ≢ 0 }
    ensures kept { Kept frontier.new.order.items frontier.new.marks.items frontier.new.count }
    ensures order { frontier.new.order.items ≡ frontier.old.order.items }
    ensures count { frontier.new.count ≡ frontier.old.count }
    ensures marks { frontier.new.marks.items ≡ slice_set frontier.old.marks.items (slice_index frontier.old.order.items at)
        (slice_index frontier.old.marks.items (slice_index frontier.old.order.items at) % 8) }
{
    let node = frontier.order[at];
    frontier.marks[node as usize] %= FRESH;
}

/// The first entry from `from` on that is in the net's own tree.
pub(crate) fn met(room: &Room, net: u32, frontier: &Frontier, from: usize) -> Option<u32>
    requires room { IsRoom room.now }
    requires kept { Kept frontier.now.order.items frontier.now.marks.items frontier.now.count }
    requires size { length frontier.now.marks.items ≡ nodes room.now.grid }
    ensures own { IfSome result (λ v. IsOwn room.now.owners.items room.now.links.items net v) }
    ensures within { IfSome result (λ v. v < nodes room.now.grid) }
    ensures marked { IfSome result (λ v. slice_index frontier.now.marks.items v ≢ 0) }
    ensures none { IfNone result ((i : ℕ) → from ≤ i → i < frontier.now.count
        → IsOwn room.now.owners.items room.now.links.items net (slice_index frontier.now.order.items i) → ⊥) }
{
    for i in from..frontier.count {
        let node = frontier.order[i];
        if room.links[node as usize] != 0 && room.owners[node as usize] == net {
            return Some(node);
        }
    }
    None
}

/// Takes all marks away. It goes over the marked nodes alone.
pub(crate) fn clear(frontier: &mut Frontier)
    requires kept { Kept frontier.old.order.items frontier.old.marks.items frontier.old.count }
    ensures clear { (v : ℕ) → slice_index frontier.new.marks.items v ≡ 0 }
    ensures marks { length frontier.new.marks.items ≡ length frontier.old.marks.items }
    ensures order { length frontier.new.order.items ≡ length frontier.old.order.items }
    ensures count { frontier.new.count ≡ 0 }
{
    for i in 0..frontier.count {
        let node = frontier.order[i];
        frontier.marks[node as usize] = 0;
    }
    frontier.count = 0;
}
