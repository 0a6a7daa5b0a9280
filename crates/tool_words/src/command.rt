// Commands, from the words behind a tool's.
ghost use Rattle.std.specs.Prelude.{◌≡◌, true, Some, None, IfOk, IsErrOf};
ghost use Rattle.tool_words.specs.declared.words.WordsError.TheVariants.{Usage};
ghost use Rattle.tool_words.specs.Arguments.{is_exact};
ghost use Rattle.tool_words.specs.Spelling.{spelled};
ghost use Rattle.tool_words.specs.View.{entry_view};

use crate::arguments::{taken, texts};
use crate::table::Entry;
use crate::values::Values;
use crate::words::WordsError;
use std::alloc::Global;
use vlsi_base::Text;

/// What a tool is asked to do, by the values of its words.
pub trait FromValues: Sized {
    ghost use Rattle.std.specs.Prelude.{◌≡◌, Option, Some, None, IfOk, IsErrOf};
    ghost use Rattle.tool_words.specs.declared.words.WordsError.TheVariants.{Usage};
    ghost use Rattle.tool_words.specs.Arguments.{Given};

    /// What the values ask for; nothing where one of them isn't there, or isn't of its form.
    ghost asked: { Given → Option Self };

    /// What the values ask for. `Usage` exactly where they ask for nothing. It takes memory for what it answers.
    fn from_values(alloc: Global, values: &Values) -> Result<Self, WordsError>
        ensures ok { IfOk result (λ c. asked values.now ≡ Some c) }
        ensures usage { IsErrOf result Usage → asked values.now ≡ None };
}

/// What the words behind a tool's ask of it, by its entry. `Usage` exactly where they are nothing of its form. It takes memory for what
/// it answers.
pub fn read_asked<C: FromValues>(
    alloc: Global,
    entry: Entry,
    words: &[Text],
) -> Result<C, WordsError>
    requires { is_exact (entry_view entry) ≡ true }
    ensures ok { IfOk result (λ c. spelled (entry_view entry) C.asked words.now ≡ Some c) }
    ensures usage { IsErrOf result Usage → spelled (entry_view entry) C.asked words.now ≡ None }
{
    let texts = texts(alloc, words)?;
    let values = taken(alloc, entry, texts.as_slice())?;
    C::from_values(alloc, &values)
}
