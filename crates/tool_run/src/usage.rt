// The lines on words that no command was read from.
ghost use Rattle.std.specs.Prelude.{◌≡◌};
ghost use Rattle.tool_drive.specs.Outside.{IsLine};
ghost use Rattle.tool_words.specs.Usage.{usage_of};
ghost use Rattle.tool_run.specs.Tools.{entries};
ghost use Rattle.tool_run.specs.Usage.{tool_of, line_of, status_of};

use crate::words::entries;
use std::alloc::Global;
use tool_drive::{Status, tell};
use tool_words::{Words, WordsError, usage_line};
use vlsi_shelf::Sink;

fn tell_usage<T: Sink>(alloc: Global, words: &Words, out: &mut T)
    ensures { IsLine (T.seen out.old) (T.seen out.new) (usage_of entries words.now) }
{
    if let Ok(line) = usage_line(alloc, entries(), words) {
        let _ = out.put(line.as_bytes());
    }
}

// The tool's word.
fn tool(words: &Words) -> &[u8]
    ensures { result.now ≡ tool_of words.now }
{
    match words.as_slice() {
        [] => &[],
        [tool, ..] => tool.as_bytes(),
    }
}

/// Answers words that no command was read from, and prints the line by one put: how the tool is called, or that memory ran out.
pub fn refuse_words<T: Sink>(alloc: Global, words: &Words, error: WordsError, out: &mut T) -> Status
    ensures status { result ≡ status_of error }
    ensures line { IsLine (T.seen out.old) (T.seen out.new) (line_of words.now result) }
{
    match error {
        WordsError::Usage => {
            tell_usage(alloc, words, out);
            Status::Usage
        }
        WordsError::Memory => {
            tell(alloc, tool(words), &Status::Memory, out);
            Status::Memory
        }
    }
}
