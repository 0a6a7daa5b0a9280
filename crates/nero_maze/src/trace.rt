// What stands in the way that a search found through the trees of other nets.
ghost use Rattle.std.specs.Prelude.{◌≡◌, ◌≢◌, ◌⊎◌, ◌<◌, ◌∷◌, ℕ, true, false, List, length};
ghost use Rattle.grid_core.specs.Numbers.{nodes};
ghost use Rattle.nero_maze.specs.Search.{IsRoom, Trace};
ghost use Rattle.nero_maze.specs.Board.{reserved_of};
ghost use Rattle.nero_maze.specs.Ripping.{AreFree, FirstTaken};

use crate::board::Board;
use crate::search::Meeting;
use crate::way::{opposite_of, step, weight_of};
use grid_core::NOBODY;

/// Whether a node with this owner is free for the net.
pub(crate) fn is_free(owner: u32, net: u32) -> bool
    ensures free { result ≡ true → (owner ≡ 4294967295) ⊎ (owner ≡ net) }
    ensures taken { result ≡ false → (owner ≢ 4294967295) × (owner ≢ net) }
{
    owner == NOBODY || owner == net
}

/// The owner of the first node that isn't free for the net, on the way from the node that was met to the target, as the marks tell it.
pub(crate) fn first_taken(board: &Board, net: u32, target: u32, meeting: Meeting) -> u32
    requires room { IsRoom board.now.room }
    requires marks { length board.now.frontier.marks.items ≡ nodes board.now.room.grid }
    requires met { meeting.node < nodes board.now.room.grid }
    requires trace { (back : List ℕ)
        × Trace board.now.room.grid (reserved_of board.now) net board.now.frontier.marks.items target meeting.node back meeting.cost
        × (AreFree board.now.room.owners.items net (meeting.node ∷ back) → ⊥) }
    ensures { (back : List ℕ)
        × Trace board.now.room.grid (reserved_of board.now) net board.now.frontier.marks.items target meeting.node back meeting.cost
        × FirstTaken board.now.room.owners.items net result (meeting.node ∷ back) }
{
    let mut node = meeting.node;
    let mut left = meeting.cost;
    while node != target {
        let owner = board.room.owners[node as usize];
        if !is_free(owner, net) {
            return owner;
        }
        let mark = board.frontier.marks[node as usize];
        let way = mark - 1;
        let Some(on) = step(&board.room.grid, node, opposite_of(way)) else {
            return owner;
        };
        left -= weight_of(way);
        node = on;
    }
    board.room.owners[node as usize]
}
