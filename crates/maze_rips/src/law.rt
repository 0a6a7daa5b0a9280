// What is true of trees that come of right moves.
ghost use Rattle.maze_rips.specs.Law.{MovesKeepTreesApart};

/// A law, erased at run time: after any right moves each net has a tree on nodes that are free for it, and trees of different nets have no
/// node in common.
pub fn moves_keep_trees_apart()
    ensures { MovesKeepTreesApart }
{}
