// Words, and why they are no command.
ghost use Rattle.std.specs.Prelude.{◌≡◌, ◌++◌, ◌∷◌, [], OnOk, OnErr};
ghost use Rattle.clap.specs.Words.{kind_of};
ghost use Rattle.clap.specs.declared.error.kind.ErrorKind.TheVariants.{OutOfMemory};
ghost use Rattle.tool_words.specs.declared.words.WordsError.TheVariants.{Memory, Usage};
ghost use Rattle.tool_words.specs.Words.{is_word};

use clap::error::ErrorKind;
use std::alloc::{AllocError, AllocFailed};
use std::marker::Model;
use thiserror::Error;
use vlsi_base::Text;

/// The words of a command line, without the program's name. Contracts see the list of their bytes.
#[derive(Drop)]
pub struct Words {
    items: Vec<Text>,
}

impl Model for Words {
    ghost use Rattle.std.specs.Prelude.{List, ℕ};

    ghost Value = { List (List ℕ) };

    ghost view = { λ a. a.items.items };
}

impl Words {
    /// These words. It takes no memory.
    pub fn new(items: Vec<Text>) -> Self
        ensures { result ≡ items.items }
    {
        Words { items }
    }

    /// The words in their order.
    pub fn as_slice(&self) -> &[Text]
        ensures { result.now ≡ self.now }
    {
        &self.items
    }

    /// Puts a word behind those that are there. After running out of memory they are as before.
    pub fn push(&mut self, word: Text) -> Result<(), AllocError>
        ensures ok { OnOk result (self.new ≡ self.old ++ word ∷ []) }
        ensures err { OnErr result (self.new ≡ self.old) }
    {
        self.items.push(word)?;
        Ok(())
    }
}

/// Why words are no command.
#[derive(Clone, Copy, Debug, PartialEq, Eq, Error)]
pub enum WordsError {
    /// Memory ran out.
    #[error("out of memory")]
    Memory,
    /// The words spell no command.
    #[error("wrong words")]
    Usage,
}

impl From<AllocError> for WordsError {
    ghost from_gives = { λ _ e. e ≡ Memory };

    fn from(_: AllocError) -> Self {
        WordsError::Memory
    }
}

impl<T: Drop> From<AllocFailed<T>> for WordsError {
    ghost from_gives = { λ _ e. e ≡ Memory };

    fn from(_: AllocFailed<T>) -> Self {
        WordsError::Memory
    }
}

impl From<clap::Error> for WordsError {
    ghost from_gives = { λ error e. e ≡ Usage → kind_of error ≡ OutOfMemory → ⊥ };

    fn from(error: clap::Error) -> Self {
        match error.kind() {
            ErrorKind::OutOfMemory => WordsError::Memory,
            _ => WordsError::Usage,
        }
    }
}

/// Whether two texts are the same bytes. Takes no memory.
pub fn is_same(a: &[u8], b: &[u8]) -> bool
    ensures { result ≡ is_word a.now b.now }
{
    a == b
}
