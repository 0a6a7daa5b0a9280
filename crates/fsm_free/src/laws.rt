// What doesn't hang on the bits that free ones are filled with.
ghost use Rattle.fsm_free.specs.Laws.{RefusedAlike, FilledAgree, OneSource, NeverBothSource, OneRefusalSource};

/// A text is refused with each free bit 1 as with each 0. Erased at run time.
pub fn refused_alike()
    ensures { RefusedAlike }
{}

/// What a text is with each free bit 0 and with each 1 agrees in all but these. Erased at run time.
pub fn filled_agree()
    ensures { FilledAgree }
{}

/// A text is at most one state machine, or one whose outputs are left free in part. Erased at run time.
pub fn one_source()
    ensures { OneSource }
{}

/// A text that is one has no refusal. Erased at run time.
pub fn never_both()
    ensures { NeverBothSource }
{}

/// A text has at most one refusal. Erased at run time.
pub fn one_refusal()
    ensures { OneRefusalSource }
{}
