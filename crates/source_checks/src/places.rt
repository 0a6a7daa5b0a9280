// A map from texts to places.
ghost use Rattle.std.specs.Prelude.{◌≡◌, IfOk, OnOk, Some, None, if◌then◌else◌, bytes_eq, ℕ, List};
ghost use Rattle.source_checks.specs.Lookup.{place_at, Learns};

use std::alloc::{AllocError, Global};
use std::collections::BTreeMap;

/// The place of each name in a list of declarations.
pub type Places = BTreeMap<Vec<u8>, usize>;

/// The place of a text.
pub fn place_of(places: &Places, text: &[u8]) -> Option<usize>
    ensures { result ≡ place_at places.now text.now }
{
    places.get(text).copied()
}

/// Puts a text, at which there is nothing yet, at a place.
fn put_place(
    alloc: Global,
    places: &mut Places,
    text: &[u8],
    place: usize,
) -> Result<(), AllocError>
    ensures { OnOk result ((t : List ℕ) → place_at places.new t ≡ (if bytes_eq text.now t then Some place else place_at places.old t)) }
{
    let key = Vec::from_slice(alloc, text)?;
    places.insert(key, place)?;
    Ok(())
}

/// Puts a text at a place, unless it has one.
pub fn learn_place(
    alloc: Global,
    places: &mut Places,
    text: &[u8],
    place: usize,
) -> Result<(), AllocError>
    ensures { OnOk result (Learns places.old places.new text.now place) }
{
    match place_of(places, text) {
        Some(_) => Ok(()),
        None => {
            put_place(alloc, places, text, place)?;
            Ok(())
        }
    }
}
