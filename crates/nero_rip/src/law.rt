// What is true of the trees of placed nets after each of the moves of a run.
ghost use Rattle.nero_rip.specs.Law.{PlacedTreesStayApart};

use maze_rips::moves_keep_trees_apart;
use ocp_grid::{placements_are_in_rows, points_are_apart};

/// A law, erased at run time: after any right moves over the nets of a placement, trees of different nets have no node in common.
pub fn placed_trees_stay_apart()
    ensures { PlacedTreesStayApart }
{
    placements_are_in_rows();
    points_are_apart();
    moves_keep_trees_apart();
}
