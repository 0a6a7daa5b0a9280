//! Blocks of several rows by numbers, drawn with routes over a grid: joined exactly as the nets, and no breach.
#![tactic(auto)]

ghost use Rattle.block_geom.specs.Block.{Block, IsSound, JoinsAsNets, shapes};
ghost use Rattle.block_geom.specs.Breach.{HasNoBreach};
ghost use Rattle.maze_geom.specs.Maze.{Routes, IsWired, IsComplete, KeepsNets, maze_lines};

/// The drawing of a sound block by routes joins no two nets, joins each supply, and breaks no rule; where the routes are complete it
/// joins exactly the nets.
pub fn routes_join_as_nets()
    ensures only { (b : Block) (r : Routes) → IsSound b → IsWired b r → KeepsNets b (shapes b (maze_lines b r)) }
    ensures all { (b : Block) (r : Routes) → IsSound b → IsWired b r → IsComplete b r → JoinsAsNets b (shapes b (maze_lines b r)) }
    ensures clean { (b : Block) (r : Routes) → IsSound b → IsWired b r → HasNoBreach (shapes b (maze_lines b r)) }
{}
