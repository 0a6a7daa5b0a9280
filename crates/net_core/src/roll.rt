// Different texts in their order, each found by its text.
ghost use Rattle.std.specs.Prelude.{◌≡◌, ◌++◌, ◌∷◌, [], None, Some, IfOk, OnOk, OnErr, ℕ, List, bytes_eq, if◌then◌else◌, slice_get};
ghost use Rattle.std.specs.List.{All};
ghost use Rattle.net_core.specs.Places.{place_at, position_of, Learned, IsThere, Begins, AddsOnly, IsShortened, NoneTwice};

use std::alloc::{AllocError, Global};
use std::collections::BTreeMap;
use std::marker::Model;
use vlsi_base::Text;

type Places = BTreeMap<Vec<u8>, usize>;

fn place_of(places: &Places, text: &[u8]) -> Option<usize>
    ensures { result ≡ place_at places.now text.now }
{
    places.get(text).copied()
}

/// Puts a text at a place. Without memory all stays as it was.
fn put_place(
    alloc: Global,
    places: &mut Places,
    text: &[u8],
    place: usize,
) -> Result<(), AllocError>
    ensures ok { OnOk result ((t : List ℕ) → place_at places.new t ≡ (if bytes_eq text.now t then Some place else place_at places.old t)) }
    ensures err { OnErr result ((t : List ℕ) → place_at places.new t ≡ place_at places.old t) }
{
    let key = Vec::from_slice(alloc, text)?;
    places.insert(key, place)?;
    Ok(())
}

/// Takes the place of a text away.
fn forget(places: &mut Places, text: &[u8])
    ensures { (t : List ℕ) → place_at places.new t ≡ (if bytes_eq text.now t then None else place_at places.old t) }
{
    let _ = places.remove(text);
}

/// Different texts in their order. Contracts see the list of their bytes' lists.
#[derive(Drop)]
pub struct Roll {
    texts: Vec<Text>,
    places: Places,
}

impl Model for Roll {
    ghost use Rattle.std.specs.Prelude.{ℕ, List};
    ghost use Rattle.net_core.specs.Places.{KnowsPlaces};

    ghost Value = { List (List ℕ) };

    ghost view = { λ a. a.texts.items };

    ghost invariant = { λ a. KnowsPlaces a.places a.texts.items };
}

impl Roll {
    /// No texts. Takes no memory.
    pub fn new(alloc: Global) -> Self
        ensures { result ≡ [] }
    {
        Roll {
            texts: Vec::new(alloc),
            places: BTreeMap::new(alloc),
        }
    }

    /// The place of a text. Takes no memory.
    pub fn place(&self, text: &Text) -> Option<usize>
        ensures { result ≡ position_of self.now text.now }
    {
        place_of(&self.places, text.as_bytes())
    }

    /// The texts. Takes no memory.
    pub fn texts(&self) -> &[Text]
        ensures texts { result.now ≡ self.now }
        ensures once { NoneTwice self.now }
    {
        &self.texts
    }

    /// Puts a text that isn't there behind the others. Without memory all stays as it was.
    pub fn push(&mut self, alloc: Global, text: &Text) -> Result<(), AllocError>
        requires { position_of self.old text.now ≡ None }
        ensures ok { OnOk result (self.new ≡ self.old ++ text.now ∷ []) }
        ensures err { OnErr result (self.new ≡ self.old) }
    {
        let copy = text.copy(alloc)?;
        let place = self.texts.len();
        self.texts.push(copy)?;
        match put_place(alloc, &mut self.places, text.as_bytes(), place) {
            Ok(()) => Ok(()),
            Err(error) => {
                let _ = self.texts.pop();
                Err(error)
            }
        }
    }

    /// The place of a text, which is put behind the others where it isn't there. Without memory all stays as it was.
    pub fn learn(&mut self, alloc: Global, text: &Text) -> Result<usize, AllocError>
        ensures learned { OnOk result (Learned self.old self.new text.now) }
        ensures place { IfOk result (λ k. slice_get self.new k ≡ Some text.now) }
        ensures err { OnErr result (self.new ≡ self.old) }
    {
        match self.place(text) {
            Some(place) => Ok(place),
            None => {
                let place = self.texts.len();
                self.push(alloc, text)?;
                Ok(place)
            }
        }
    }

    /// Takes the last text away, where there are more than `count`. Takes no memory.
    pub fn shorten(&mut self, count: usize)
        ensures { IsShortened self.old self.new count }
    {
        if self.texts.len() > count {
            if let Some(text) = self.texts.pop() {
                forget(&mut self.places, text.as_bytes());
            }
        }
    }

    /// Learns texts in their order. Without memory some may have been learned.
    pub fn learn_all(&mut self, alloc: Global, texts: &[Text]) -> Result<(), AllocError>
        ensures grown { OnOk result (Begins self.old self.new) }
        ensures there { OnOk result (All (IsThere self.new) texts.now) }
        ensures only { OnOk result (AddsOnly self.old self.new texts.now) }
        ensures same { OnOk result (self.old ≡ [] → NoneTwice texts.now → self.new ≡ texts.now) }
    {
        for text in texts {
            self.learn(alloc, text)?;
        }
        Ok(())
    }

    /// These texts, and behind them those of `more` that aren't among them. Takes memory for all.
    pub fn extended(&self, alloc: Global, more: &[Text]) -> Result<Self, AllocError>
        ensures grown { IfOk result (λ roll. Begins self.now roll) }
        ensures there { IfOk result (λ roll. All (IsThere roll) more.now) }
        ensures only { IfOk result (λ roll. AddsOnly self.now roll more.now) }
    {
        let mut roll = Roll::new(alloc);
        roll.learn_all(alloc, &self.texts)?;
        roll.learn_all(alloc, more)?;
        Ok(roll)
    }
}
