// The text of patterns is a pattern file of these patterns.
ghost use Rattle.pat_print.specs.WrittenAgain.{WrittenIsReadAgain};

/// The text that `write_pat` writes of patterns for ports is a pattern file without a fault for these ports, and its
/// patterns are those that were written: where no port is a supply, where names and labels are words in lower case and numbers
/// have 32 bits, where times never fall, and where the text has no more bytes than a pattern file may have.
pub fn written_is_read_again()
    ensures { WrittenIsReadAgain }
{}
