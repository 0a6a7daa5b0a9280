//! Blocks of one row by numbers, drawn with private tracks: joined exactly as the nets, and no breach.
#![tactic(auto)]

ghost use Rattle.std.specs.Prelude.{ℕ};
ghost use Rattle.block_geom.specs.Block.{Block, IsSound, JoinsAsNets, shapes};
ghost use Rattle.block_geom.specs.Breach.{HasNoBreach};
ghost use Rattle.block_geom.specs.Tracks.{HasTracks, block_lines};

/// The drawing of a sound block by private tracks joins exactly its nets, and breaks no rule.
pub fn tracks_join_as_nets()
    ensures joined { (b : Block) (lo hi : ℕ → ℕ) → IsSound b → HasTracks b lo hi → JoinsAsNets b (shapes b (block_lines b lo hi)) }
    ensures clean { (b : Block) (lo hi : ℕ → ℕ) → IsSound b → HasTracks b lo hi → HasNoBreach (shapes b (block_lines b lo hi)) }
{}
