// What is written of a state machine is a sentence.
ghost use Rattle.fsm_print.specs.Said.{WrittenIsASentence};

/// The text of a state machine is cut into tokens without a refusal, and these are a sentence of the grammar of state machines, whose
/// value is the stated one, with the three pragmas. Names, numbers, what is nested and how often a target is assigned are within the
/// limits of texts.
pub fn written_is_a_sentence()
    ensures { WrittenIsASentence }
{}
