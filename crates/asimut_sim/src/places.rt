// The places of names in lists of names, and bits by place.
ghost use Rattle.std.specs.Prelude.{◌≡◌, ◌++◌, map, length, IfOk, OnOk};
ghost use Rattle.machine_core.specs.Order.{AllDifferent};
ghost use Rattle.std.specs.FinMap.{get};
ghost use Rattle.asimut_sim.specs.Program.{AreBelow, bits_of};
ghost use Rattle.asimut_sim.specs.Places.{IsIndexOf, bit_at as bit_of};

use std::alloc::{AllocError, Global};
use vlsi_base::{Name, NameIndex};

/// Where the names of a list stand, by name.
#[derive(Drop)]
pub(crate) struct Index<'a> {
    places: NameIndex<'a>,
}

impl<'a> Index<'a> {
    /// The index of a list. It takes memory for one entry a name.
    pub(crate) fn of(alloc: Global, names: &'a [Name]) -> Result<Index<'a>, AllocError>
        requires { AllDifferent names.now }
        ensures { IfOk result (λ index. IsIndexOf index.places names.now) }
    {
        let mut places = NameIndex::new(alloc);
        places.insert_all(names)?;
        Ok(Index { places })
    }

    /// The place of a name in the list, if it stands there.
    pub(crate) fn find(&self, name: &'a Name) -> Option<usize>
        ensures { result ≡ get self.now.places name.now }
    {
        self.places.find(name.text.as_bytes(), name.bit)
    }

    /// The places of these names in the list. It takes memory for one place a name.
    pub(crate) fn find_all(
        &self,
        alloc: Global,
        asked: &'a [Name],
    ) -> Result<Vec<Option<usize>>, AllocError>
        ensures { IfOk result (λ v. v.items ≡ map (get self.now.places) asked.now) }
    {
        let mut places = Vec::new(alloc);
        for name in asked {
            places.push(self.find(name))?;
        }
        Ok(places)
    }
}

/// The bit at a place. Where there is none it reads as 0.
pub(crate) fn bit_at(bits: &[bool], place: Option<usize>) -> bool
    ensures { result ≡ bit_of bits.now place }
{
    match place {
        Some(k) if k < bits.len() => bits[k],
        _ => false,
    }
}

/// The bits at these places. It takes memory for one bit a place.
pub(crate) fn bits_at(
    alloc: Global,
    bits: &[bool],
    places: &[Option<usize>],
) -> Result<Vec<bool>, AllocError>
    ensures { IfOk result (λ v. v.items ≡ map (bit_of bits.now) places.now) }
{
    let mut found = Vec::new(alloc);
    for place in places {
        found.push(bit_at(bits, *place))?;
    }
    Ok(found)
}

/// The bits of an array that stand at places of a list of its places. Where there is none it reads as 0. It takes memory for
/// one bit a place.
pub(crate) fn seen_bits(
    alloc: Global,
    bits: &[bool],
    vars: &[usize],
    places: &[Option<usize>],
) -> Result<Vec<bool>, AllocError>
    requires { AreBelow (length bits.now) vars.now }
    ensures { IfOk result (λ v. v.items ≡ map (bit_of (bits_of bits.now vars.now)) places.now) }
{
    let mut seen = Vec::new(alloc);
    for place in places {
        seen.push(seen_bit(bits, vars, *place))?;
    }
    Ok(seen)
}

fn seen_bit(bits: &[bool], vars: &[usize], place: Option<usize>) -> bool
    requires { AreBelow (length bits.now) vars.now }
    ensures { result ≡ bit_of (bits_of bits.now vars.now) place }
{
    match place {
        Some(k) if k < vars.len() => bits[vars[k]],
        _ => false,
    }
}
