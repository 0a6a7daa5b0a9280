// What follows from the definitions.
ghost use Rattle.vlsi_base.specs.Laws.{NumbersAreReadAgain};

/// The digits that `push_u64` puts are what `read_u64` reads as that number.
pub fn numbers_are_read_again()
    ensures { NumbersAreReadAgain }
{}
