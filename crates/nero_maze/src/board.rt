// The arrays of a router.
ghost use Rattle.std.specs.Prelude.{◌≡◌, ◌≢◌, ◌<◌, ◌⊎◌, ℕ, IfNone, IfOk, IfSome, map, slice_index, slice_set};
ghost use Rattle.grid_core.specs.Numbers.{nodes};
ghost use Rattle.nero_maze.specs.Search.{IsIdle, IsOwn, is_owned};
ghost use Rattle.nero_maze.specs.Board.{IsSound, HoldTrees, reserved_of, Logs, Touches, Reaches, IsStuck};
ghost use Rattle.nero_maze.specs.Hulls.{Holds};
ghost use Rattle.nero_maze.specs.Ripping.{IsTorn, NoWay, IsBlocked};

use crate::claim::claim;
use crate::frontier::{Frontier, Marked, Room, Words, clear, push, reserved_word};
use crate::hull::{Hull, hull_of_logged, hull_of_tree, keep_hull, nowhere, with_node};
use crate::search::search;
use crate::tear::{drop_freed, free_paths};
use crate::trace::{first_taken, is_free};
use grid_core::NOBODY;
use std::alloc::{AllocError, Global};

/// The link of a node at which a tree began.
pub(crate) const ROOT: u8 = 9;
/// The mark in the log of a node to which a path was claimed, or at which a tree began.
const REACHED: u8 = 1;
/// The mark of one that was in the net's tree already.
pub(crate) const TOUCHED: u8 = 2;

/// All arrays: 16 bytes a node, and three for each penalty. A node that is flagged in `reserved` had its owner before any tree began, and
/// others had none. Each hull holds the tree of the net with its number.
#[derive(Drop)]
pub(crate) struct Board {
    pub(crate) room: Room,
    pub(crate) reserved: Vec<bool>,
    pub(crate) frontier: Frontier,
    pub(crate) log: Marked,
    pub(crate) hulls: Vec<Hull>,
}

/// Which nodes have an owner.
pub(crate) fn flags_of(alloc: Global, owners: &[u32]) -> Result<Vec<bool>, AllocError>
    ensures { IfOk result (λ flags. flags.items ≡ map is_owned owners.now) }
{
    owners.iter().map(|owner| *owner != NOBODY).collect(alloc)
}

/// Begins the net's tree at a node that is free for it.
pub(crate) fn root(board: &mut Board, net: u32, node: u32)
    requires sound { IsSound board.old }
    requires node { node < nodes board.old.room.grid }
    requires bare { slice_index board.old.room.links.items node ≡ 0 }
    requires alone { (v : ℕ) → IsOwn board.old.room.owners.items board.old.room.links.items net v → ⊥ }
    ensures grid { board.new.room.grid ≡ board.old.room.grid }
    ensures owners { board.new.room.owners.items ≡ slice_set board.old.room.owners.items node net }
    ensures links { board.new.room.links.items ≡ slice_set board.old.room.links.items node 9 }
    ensures log { Logs node 1 board.old.log board.new.log }
    ensures frontier { board.new.frontier ≡ board.old.frontier }
    ensures reserved { board.new.reserved ≡ board.old.reserved }
    ensures holds { HoldTrees board.new }
{
    let hull = with_node(&board.room.grid, nowhere(), node);
    keep_hull(&mut board.hulls, net, hull);
    board.room.owners[node as usize] = net;
    board.room.links[node as usize] = ROOT;
    push(&mut board.log, node, REACHED);
}

/// The hull of the net's tree. It goes over all nodes where none is kept for the net.
fn hull_for(board: &Board, net: u32) -> Hull
    requires sound { IsSound board.now }
    ensures { Holds board.now.room.grid result board.now.room.owners.items board.now.room.links.items net }
{
    let at = net as usize;
    if at < board.hulls.len() {
        board.hulls[at]
    } else {
        hull_of_tree(&board.room, net)
    }
}

/// Connects the target with the net's tree by a least path, and gives its cost.
pub(crate) fn join(board: &mut Board, net: u32, target: u32) -> Option<u64>
    requires sound { IsSound board.old }
    requires target { target < nodes board.old.room.grid }
    requires new { (slice_index board.old.log.marks.items target ≡ 0) ⊎ (slice_index board.old.room.owners.items target ≢ net) }
    ensures idle { IsIdle board.new.frontier.order.items board.new.frontier.marks.items (nodes board.old.room.grid) }
    ensures joins { IfSome result (λ c. Touches net target c board.old board.new ⊎ Reaches net target c board.old board.new) }
    ensures stuck { IfNone result (IsStuck net target board.old board.new) }
    ensures reserved { board.new.reserved ≡ board.old.reserved }
    ensures holds { HoldTrees board.new }
{
    let at = target as usize;
    let owner = board.room.owners[at];
    if board.room.links[at] != 0 && owner == net {
        push(&mut board.log, target, TOUCHED);
        return Some(0);
    }
    if owner != NOBODY && owner != net {
        return None;
    }
    let hull = hull_for(board, net);
    let room = &board.room;
    let words = Words {
        owners: &room.owners,
        reserved: &board.reserved,
        past: false,
    };
    let found = search(room, words, net, target, hull, &mut board.frontier);
    let Some(meeting) = found else {
        clear(&mut board.frontier);
        return None;
    };
    let grown = claim(
        &mut board.room,
        net,
        target,
        &board.frontier.marks,
        hull,
        meeting,
    );
    keep_hull(&mut board.hulls, net, grown);
    clear(&mut board.frontier);
    push(&mut board.log, target, REACHED);
    Some(meeting.cost)
}

/// Later searches keep off the nodes of the net's tree, where other ways cost no more.
pub(crate) fn keep_off(board: &mut Board, net: u32)
    requires sound { IsSound board.old }
    ensures idle { IsIdle board.new.frontier.order.items board.new.frontier.marks.items (nodes board.old.room.grid) }
    ensures room { board.new.room ≡ board.old.room }
    ensures log { board.new.log ≡ board.old.log }
    ensures reserved { board.new.reserved ≡ board.old.reserved }
    ensures holds { HoldTrees board.new }
{
    let hull = hull_for(board, net);
    board.frontier.ties.add_tree(&board.room, &hull, net);
}

/// Takes the paths of a net out: its tree is the node at which it began, and their other nodes are whose they were before. It goes over the
/// log and over these paths alone.
pub(crate) fn tear(board: &mut Board, net: u32)
    requires sound { IsSound board.old }
    ensures torn { IsTorn net board.old board.new }
    ensures holds { HoldTrees board.new }
{
    free_paths(&mut board.room, &board.reserved, net, &board.log);
    drop_freed(&board.room, &mut board.log);
    let hull = hull_of_logged(&board.room, &board.log, net);
    keep_hull(&mut board.hulls, net, hull);
}

/// The net whose tree has the first node that isn't free on a least path from the net's tree to the target over nodes that are reserved
/// for no other net; none where there is no such path.
pub(crate) fn block(board: &mut Board, net: u32, target: u32) -> Option<u32>
    requires sound { IsSound board.old }
    requires target { target < nodes board.old.room.grid }
    requires outside { IsOwn board.old.room.owners.items board.old.room.links.items net target → ⊥ }
    requires stuck { NoWay board.old board.old.room.owners.items net target }
    ensures idle { IsIdle board.new.frontier.order.items board.new.frontier.marks.items (nodes board.old.room.grid) }
    ensures room { board.new.room ≡ board.old.room }
    ensures log { board.new.log ≡ board.old.log }
    ensures reserved { board.new.reserved ≡ board.old.reserved }
    ensures holds { HoldTrees board.new }
    ensures blocks { IfSome result (λ b. IsBlocked board.old net target b) }
    ensures none { IfNone result (NoWay board.old (reserved_of board.old) net target) }
{
    let word = reserved_word(&board.room.owners, &board.reserved, target);
    if !is_free(word, net) {
        return None;
    }
    let hull = hull_for(board, net);
    let room = &board.room;
    let words = Words {
        owners: &room.owners,
        reserved: &board.reserved,
        past: true,
    };
    let found = search(room, words, net, target, hull, &mut board.frontier);
    let Some(meeting) = found else {
        clear(&mut board.frontier);
        return None;
    };
    let owner = first_taken(board, net, target, meeting);
    clear(&mut board.frontier);
    Some(owner)
}
