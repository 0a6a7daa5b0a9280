// The commands of all tools.
ghost use Rattle.std.specs.Prelude.{◌≡◌, Some, None, IfOk, IsErrOf};
ghost use Rattle.tool_words.specs.declared.words.WordsError.TheVariants.{Usage};
ghost use Rattle.flow_words.specs.Words.{flow_of, gen_of};
ghost use Rattle.flow_run.specs.Commands.{command_of};

use flow_words::{FLOW_ENTRY, FlowCommand, GEN_ENTRY, GenCommand};
use std::alloc::Global;
use tool_run::{Command as ToolCommand, read_command};
use tool_words::{Words, WordsError, is_same, read_asked};
use vlsi_base::Text;

/// What the words of a command ask for.
#[derive(Drop)]
pub enum Command {
    Flow(FlowCommand),
    Gen(GenCommand),
    Tool(ToolCommand),
}

// What `flow` is asked to do by the words behind its own.
fn read_flow(alloc: Global, words: &[Text]) -> Result<FlowCommand, WordsError>
    ensures ok { IfOk result (λ flow. flow_of words.now ≡ Some flow) }
    ensures usage { IsErrOf result Usage → flow_of words.now ≡ None }
{
    read_asked(alloc, FLOW_ENTRY, words)
}

// What `gen` is asked to do by the words behind its own.
fn read_gen(alloc: Global, words: &[Text]) -> Result<GenCommand, WordsError>
    ensures ok { IfOk result (λ generate. gen_of words.now ≡ Some generate) }
    ensures usage { IsErrOf result Usage → gen_of words.now ≡ None }
{
    read_asked(alloc, GEN_ENTRY, words)
}

/// Takes words apart: the tool's word, and then what its entry has. `Usage` exactly where the words are nothing of this form. It reads
/// no file, and takes memory for what it reads and answers.
pub fn read_words(alloc: Global, words: &Words) -> Result<Command, WordsError>
    ensures ok { IfOk result (λ command. command_of words.now ≡ Some command) }
    ensures usage { IsErrOf result Usage → command_of words.now ≡ None }
{
    let Some((tool, rest)) = words.as_slice().split_first() else {
        return Err(WordsError::Usage);
    };
    if is_same(b"flow", tool.as_bytes()) {
        return Ok(Command::Flow(read_flow(alloc, rest)?));
    }
    if is_same(b"gen", tool.as_bytes()) {
        return Ok(Command::Gen(read_gen(alloc, rest)?));
    }
    Ok(Command::Tool(read_command(alloc, words)?))
}
