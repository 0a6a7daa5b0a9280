// What is written of a machine is a sentence.
ghost use Rattle.vbe_print.specs.Said.{WrittenIsASentence};

/// The text of a machine is cut into tokens without a refusal, and these are a sentence of the grammar of data-flow texts, whose value
/// is the stated one. Names, numbers, nested parentheses and chains are within the limits of texts.
pub fn written_is_a_sentence()
    ensures { WrittenIsASentence }
{}
