// Where names stand, found by name.
ghost use Rattle.std.specs.Prelude.{◌≡◌, OnOk, OnErr};
ghost use Rattle.std.specs.Option.{option_or};
ghost use Rattle.std.specs.FinMap.{empty, get, insert};
ghost use Rattle.vlsi_base.specs.declared.name.Name.{Name};
ghost use Rattle.vlsi_base.specs.NamePlaces.{last_place, name_of};

use crate::Name;
use std::alloc::{AllocError, Global};
use std::collections::BTreeMap;
use std::marker::Model;

/// A name's text and its bit, as an index orders names.
type Key<'a> = (&'a [u8], Option<u32>);

/// An index of names that stand in a list. Contracts see it as the map from each name to the place that was recorded last
/// for it.
#[derive(Drop)]
pub struct NameIndex<'a> {
    places: BTreeMap<Key<'a>, usize>,
}

impl<'a> Model for NameIndex<'a> {
    ghost use Rattle.std.specs.Prelude.{map};
    ghost use Rattle.std.specs.FinMap.{from_entries};
    ghost use Rattle.vlsi_base.specs.NamePlaces.{NamePlaces, places_code, name_of};

    ghost Value = { NamePlaces };

    ghost coded = { places_code };

    ghost view = { λ a. from_entries (map (λ e. (name_of e.0.0.now e.0.1, e.1)) a.places.entries) };
}

impl<'a> NameIndex<'a> {
    /// An index of no names. Takes no memory.
    pub fn new(alloc: Global) -> NameIndex<'a>
        ensures { result ≡ empty }
    {
        NameIndex {
            places: BTreeMap::new(alloc),
        }
    }

    /// Records that a name stands at a place. Takes memory for one entry; of two places of one name the later counts.
    /// Without memory all stays as it was.
    pub fn insert(
        &mut self,
        text: &'a [u8],
        bit: Option<u32>,
        place: usize,
    ) -> Result<(), AllocError>
        ensures ok { OnOk result (self.new ≡ insert self.old (name_of text.now bit) place) }
        ensures err { OnErr result (self.new ≡ self.old) }
    {
        let _ = self.places.insert((text, bit), place)?;
        Ok(())
    }

    /// Records the names of a list with their places. Takes memory for one entry a name.
    pub fn insert_all(&mut self, names: &'a [Name]) -> Result<(), AllocError>
        ensures { OnOk result ((n : Name) → get self.new n ≡ option_or (last_place names.now n) (get self.old n)) }
    {
        for (place, name) in names.iter().enumerate() {
            self.insert(name.text.as_bytes(), name.bit, place)?;
        }
        Ok(())
    }

    /// The place that was recorded last for a name. Takes no memory.
    pub fn find(&self, text: &'a [u8], bit: Option<u32>) -> Option<usize>
        ensures { result ≡ get self.now (name_of text.now bit) }
    {
        self.places.get(&(text, bit)).copied()
    }
}
