// Texts that are taken.
ghost use Rattle.std.specs.Prelude.{◌≡◌, ◌||◌, OnOk, IfOk, not, bytes_eq, ℕ, List, false};
ghost use Rattle.text_names.specs.Free.{is_free};
ghost use Rattle.text_names.specs.Known.{is_known};

use std::alloc::{AllocError, Global};
use std::collections::BTreeSet;
use vlsi_base::Text;

/// Texts, each found by its bytes.
#[derive(Drop)]
pub(crate) struct Taken {
    texts: BTreeSet<Vec<u8>>,
}

impl Taken {
    // No texts. Takes no memory.
    fn none(alloc: Global) -> Self
        ensures { (text : List ℕ) → is_known text result ≡ false }
    {
        Taken {
            texts: BTreeSet::new(alloc),
        }
    }

    // Puts a text in. Takes memory for its bytes.
    fn put(&mut self, alloc: Global, text: &[u8]) -> Result<(), AllocError>
        ensures { OnOk result ((other : List ℕ) → is_known other self.new ≡ bytes_eq other text.now || is_known other self.old) }
    {
        let key = text.to_vec(alloc)?;
        let _ = self.texts.insert(key)?;
        Ok(())
    }

    /// These texts. Takes memory for their bytes.
    pub(crate) fn new(alloc: Global, texts: &[Text]) -> Result<Self, AllocError>
        ensures { IfOk result (λ taken. (text : List ℕ) → is_known text taken ≡ not (is_free texts.now text)) }
    {
        let mut taken = Taken::none(alloc);
        for text in texts {
            taken.put(alloc, text.as_bytes())?;
        }
        Ok(taken)
    }

    /// Whether a text is among them. Takes no memory.
    pub(crate) fn has(&self, text: &[u8]) -> bool
        ensures { result ≡ is_known text.now self.now }
    {
        self.texts.contains(text)
    }
}
