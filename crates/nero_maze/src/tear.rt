// A net's paths are taken out.
ghost use Rattle.std.specs.Prelude.{ℕ, ◌≡◌, ◌<◌, ◌≤◌, ◌+◌, None, IfSome, length, slice_index};
ghost use Rattle.grid_core.specs.Numbers.{nodes};
ghost use Rattle.nero_maze.specs.Search.{IsRoom, Kept, reserved_in};
ghost use Rattle.nero_maze.specs.Ripping.{IsOnPath, IsFreedFrom, IsFreedAt, IsShorter, IsSifted, onward, is_linked};

use crate::board::ROOT;
use crate::frontier::{Marked, Room, reserved_word};
use crate::way::step;

/// How many ways lead on from a node. A link is one more than a way, or this and one more.
const WAYS: u8 = 4;

/// A node of the net's tree, other than the one at which this began, gets the owner for which it is reserved. The next node on its path is
/// given.
fn free_node(room: &mut Room, reserved: &Vec<bool>, net: u32, node: u32) -> Option<u32>
    requires room { IsRoom room.old }
    requires size { length reserved.now.items ≡ nodes room.old.grid }
    requires node { node < nodes room.old.grid }
    ensures freed { IsFreedAt net (reserved_in room.old.owners.items reserved.now.items) node room.old room.new }
    ensures on { IsOnPath net room.old node → result ≡ onward room.old node }
    ensures none { (IsOnPath net room.old node → ⊥) → result ≡ None }
    ensures within { IfSome result (λ v. v < nodes room.old.grid) }
{
    let at = node as usize;
    let link = room.links[at];
    if link == 0 || link == ROOT {
        return None;
    }
    if room.owners[at] != net {
        return None;
    }
    let word = reserved_word(&room.owners, reserved, node);
    room.links[at] = 0;
    room.owners[at] = word;
    step(&room.grid, node, (link - 1) % WAYS)
}

/// The same for the nodes of a path from its end on, as far as none before has been freed.
fn free_path(room: &mut Room, reserved: &Vec<bool>, net: u32, end: u32)
    requires room { IsRoom room.old }
    requires size { length reserved.now.items ≡ nodes room.old.grid }
    requires end { end < nodes room.old.grid }
    ensures { IsFreedFrom net (reserved_in room.old.owners.items reserved.now.items) (λ v. v ≡ end) room.old room.new }
{
    let mut next = Some(end);
    while let Some(node) = next {
        next = free_node(room, reserved, net, node);
    }
}

/// The nodes of the net's paths get the owners for which they are reserved. It goes over the log and over these nodes alone.
pub(crate) fn free_paths(room: &mut Room, reserved: &Vec<bool>, net: u32, log: &Marked)
    requires room { IsRoom room.old }
    requires size { length reserved.now.items ≡ nodes room.old.grid }
    requires kept { Kept log.now.order.items log.now.marks.items log.now.count }
    requires logged { length log.now.marks.items ≡ nodes room.old.grid }
    ensures { IsFreedFrom net (reserved_in room.old.owners.items reserved.now.items)
        (λ v. (i : ℕ) × (i < log.now.count) × (slice_index log.now.order.items i ≡ v)) room.old room.new }
{
    for at in 0..log.count {
        free_path(room, reserved, net, log.order[at]);
    }
}

/// Entry `at` of the log goes, if its node is in no tree any more; else it moves to place `count`. How many stay so far is given.
fn sift(room: &Room, log: &mut Marked, at: usize, count: usize) -> usize
    requires room { IsRoom room.now }
    requires size { length log.old.marks.items ≡ nodes room.now.grid }
    requires places { length log.old.order.items ≡ nodes room.now.grid }
    requires at { at < log.old.count }
    requires full { log.old.count ≤ nodes room.now.grid }
    requires node { slice_index log.old.order.items at < nodes room.now.grid }
    requires few { count ≤ at }
    ensures { IsSifted (is_linked room.now) at count log.old log.new result }
{
    let node = log.order[at];
    if room.links[node as usize] == 0 {
        log.marks[node as usize] = 0;
        return count;
    }
    log.order[count] = node;
    count + 1
}

/// The log forgets the nodes that are in no tree any more. It goes over the log alone.
pub(crate) fn drop_freed(room: &Room, log: &mut Marked)
    requires room { IsRoom room.now }
    requires kept { Kept log.old.order.items log.old.marks.items log.old.count }
    requires size { length log.old.marks.items ≡ nodes room.now.grid }
    ensures { IsShorter (is_linked room.now) log.old log.new }
{
    let mut count = 0;
    for at in 0..log.count {
        count = sift(room, log, at, count);
    }
    log.count = count;
}
