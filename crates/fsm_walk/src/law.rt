// What follows of steps and words.
ghost use Rattle.fsm_walk.specs.Step.{StepIsWalk, ReadsAlone};
ghost use Rattle.fsm_walk.specs.Words.{WordsAreAll};

/// What the walk with a state knows at its end is what the step has.
pub fn step_is_walk()
    ensures { StepIsWalk }
{}

/// A step depends on the ports alone that the statements read.
pub fn reads_alone()
    ensures { ReadsAlone }
{}

/// Whatever the bits of the ports are, those of some number are the same at the marked places.
pub fn words_are_all()
    ensures { WordsAreAll }
{}
