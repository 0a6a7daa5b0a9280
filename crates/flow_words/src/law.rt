// What the words of `flow` and `gen` ask for.
ghost use Rattle.flow_words.specs.Words.{FlowsAreWithinBounds, GensAreWithinBounds};

/// The numbers that words spell are within the bounds of their options.
pub fn words_are_within_bounds()
    ensures flows { FlowsAreWithinBounds }
    ensures gens { GensAreWithinBounds }
{}
