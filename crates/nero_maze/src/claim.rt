// A path that a search has found becomes part of the net's tree.
ghost use Rattle.std.specs.Prelude.{◌≡◌, ◌≢◌, ℕ, ◌<◌, List, length, slice_index};
ghost use Rattle.grid_core.specs.Numbers.{nodes};
ghost use Rattle.nero_maze.specs.Search.{IsRoom, IsFree, IsOwn, NoneBelow, Trace};
ghost use Rattle.nero_maze.specs.Claims.{Claimed};
ghost use Rattle.nero_maze.specs.Hulls.{Holds};

use crate::frontier::{Room, START};
use crate::hull::{Hull, with_node};
use crate::search::Meeting;
use crate::way::{opposite_of, step, weight_of};

/// What is added to the link of a node that is next to the tree which its path joins.
const JOINING: u8 = 4;

/// The nodes from the one that was met on to the target, as the marks tell them, join the net's tree. The hull of this grows with it.
pub(crate) fn claim(
    room: &mut Room,
    net: u32,
    target: u32,
    marks: &[u8],
    hull: Hull,
    meeting: Meeting,
) -> Hull
    requires room { IsRoom room.old }
    requires marks { length marks.now ≡ nodes room.old.grid }
    requires target { IsFree room.old.owners.items net target }
    requires outside { IsOwn room.old.owners.items room.old.links.items net target → ⊥ }
    requires met { meeting.node < nodes room.old.grid }
    requires own { IsOwn room.old.owners.items room.old.links.items net meeting.node }
    requires holds { Holds room.old.grid hull room.old.owners.items room.old.links.items net }
    requires trace { (back : List ℕ) × (length back < nodes room.old.grid)
        × Trace room.old.grid room.old.owners.items net marks.now target meeting.node back meeting.cost }
    requires least { (v : ℕ) → slice_index room.old.links.items v ≢ 0
        → NoneBelow room.old.grid room.old.owners.items net target v meeting.cost }
    ensures room { IsRoom room.new }
    ensures holds { Holds room.new.grid result room.new.owners.items room.new.links.items net }
    ensures claimed { (rest : List ℕ) × Claimed net target meeting.cost room.old room.new rest }
{
    let mut node = meeting.node;
    let mut left = meeting.cost;
    let mut joining = JOINING;
    let mut hull = hull;
    while marks[node as usize] != START {
        let way = marks[node as usize] - 1;
        let Some(on) = step(&room.grid, node, opposite_of(way)) else {
            return hull;
        };
        hull = with_node(&room.grid, hull, on);
        room.links[on as usize] = way + 1 + joining;
        room.owners[on as usize] = net;
        left -= weight_of(way);
        joining = 0;
        node = on;
    }
    hull
}
