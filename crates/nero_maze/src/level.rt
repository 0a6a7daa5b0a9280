// The levels of a search: nodes by their cost and the bound of what is left.
ghost use Rattle.std.specs.Prelude.{◌<◌, ◌≡◌};
ghost use Rattle.nero_maze.specs.Levels.{IsNextLevel};

/// A level: its sum of cost and bound, and where in the order its entries begin, those of the level before, and so on.
#[derive(Clone, Copy, Drop)]
pub(crate) struct Level {
    pub(crate) target: u32,
    pub(crate) sum: u64,
    pub(crate) first: usize,
    pub(crate) one: usize,
    pub(crate) two: usize,
    pub(crate) three: usize,
    pub(crate) four: usize,
    pub(crate) five: usize,
    pub(crate) six: usize,
}

/// The level of the target itself.
pub(crate) fn first_level(target: u32, sum: u64) -> Level
    ensures target { result.target ≡ target }
    ensures sum { result.sum ≡ sum }
    ensures first { result.first ≡ 0 }
    ensures one { result.one ≡ 0 }
    ensures two { result.two ≡ 0 }
    ensures three { result.three ≡ 0 }
    ensures four { result.four ≡ 0 }
    ensures five { result.five ≡ 0 }
    ensures six { result.six ≡ 0 }
{
    Level {
        target,
        sum,
        first: 0,
        one: 0,
        two: 0,
        three: 0,
        four: 0,
        five: 0,
        six: 0,
    }
}

/// The next level, whose entries come behind so many.
pub(crate) fn next_level(level: Level, count: usize) -> Level
    requires { level.sum < 18446744073709551615 }
    ensures { IsNextLevel count level result }
{
    Level {
        target: level.target,
        sum: level.sum + 1,
        first: count,
        one: level.first,
        two: level.one,
        three: level.two,
        four: level.three,
        five: level.four,
        six: level.five,
    }
}
