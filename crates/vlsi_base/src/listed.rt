// Lists of one type of item.
ghost use Rattle.std.specs.Prelude.{◌≡◌, ◌++◌, ◌∷◌, [], OnOk, OnErr};

use std::alloc::AllocError;
use std::marker::Model;

/// Items in their order. Contracts see the list of what they see of each item.
#[derive(Debug, Drop)]
pub struct Listed<T> {
    items: Vec<T>,
}

impl<T> Model for Listed<T> {
    ghost use Rattle.std.specs.Prelude.{List};

    ghost Value = { List T };

    ghost view = { λ a. a.items.items };
}

impl<T> Listed<T> {
    /// These items. Takes no memory.
    pub fn new(items: Vec<T>) -> Self
        ensures { result ≡ items.items }
    {
        Listed { items }
    }

    /// The items, in their order. Takes no memory.
    pub fn as_slice(&self) -> &[T]
        ensures { result.now ≡ self.now }
    {
        &self.items
    }

    /// The items, given back. Takes no memory.
    pub fn into_vec(self) -> Vec<T>
        ensures { result.items ≡ self }
    {
        let Listed { items } = self;
        items
    }
}

impl<T: Drop> Listed<T> {
    /// Puts an item behind those that are there. Takes memory for what is put; without it all stays as it was.
    pub fn push(&mut self, item: T) -> Result<(), AllocError>
        ensures ok { OnOk result (self.new ≡ self.old ++ item ∷ []) }
        ensures err { OnErr result (self.new ≡ self.old) }
    {
        self.items.push(item)?;
        Ok(())
    }
}
