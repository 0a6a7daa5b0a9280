// The registers of a path, in its order.
ghost use Rattle.std.specs.Prelude.{◌≡◌, ◌<◌, ◌^◌, List, ℕ, map, All, length, IfOk, IfErr, IfSome, IsNone, OnOk};
ghost use Rattle.vlsi_base.specs.Member.{In, AllDifferent};
ghost use Rattle.loon_wiring.specs.Repeaters.{IsFirst};
ghost use Rattle.scan_checks.specs.Refused.{names_of, IsPathRefusal, IsTwiceRefusal, NamesAll, AreInOrder};

use crate::error::ScanError;
use crate::registers::Register;
use net_core::Roll;
use std::alloc::{AllocError, Global};
use vlsi_base::Text;

fn names_of(alloc: Global, registers: &[Register]) -> Result<Vec<Text>, AllocError>
    ensures { IfOk result (λ names. names.items ≡ names_of registers.now) }
{
    let mut names = Vec::new(alloc);
    for register in registers {
        names.push(register.name.copy(alloc)?)?;
    }
    Ok(names)
}

// Names of which none stands twice, found by name.
fn roll_of(alloc: Global, names: &[Text]) -> Result<Roll, AllocError>
    requires { AllDifferent names.now }
    ensures { IfOk result (λ roll. roll ≡ names.now) }
{
    let mut roll = Roll::new(alloc);
    roll.learn_all(alloc, names)?;
    Ok(roll)
}

// The first of these texts that isn't on the roll.
fn first_off<'t>(roll: &Roll, texts: &'t [Text]) -> Option<&'t Text>
    ensures found { IfSome result (λ text. IsFirst (λ t. In t roll.now → ⊥) texts.now text.now) }
    ensures none { IsNone result → (text : List ℕ) → In text texts.now → In text roll.now }
{
    for text in texts {
        match roll.place(text) {
            Some(_) => {}
            None => return Some(text),
        }
    }
    None
}

// These texts, found by text, or the first that stood before.
fn all_once(alloc: Global, texts: &[Text]) -> Result<Roll, ScanError>
    ensures roll { IfOk result (λ roll. roll ≡ texts.now) }
    ensures once { OnOk result (AllDifferent texts.now) }
    ensures refused { IfErr result (λ e. IsTwiceRefusal texts.now e) }
{
    let mut roll = Roll::new(alloc);
    for text in texts {
        if roll.place(text).is_some() {
            return Err(ScanError::Twice(text.copy(alloc)?));
        }
        roll.push(alloc, text)?;
    }
    Ok(roll)
}

// Whether the path names each of the registers of these names once, and no other.
fn check_path(alloc: Global, names: &[Text], known: &Roll, path: &[Text]) -> Result<(), ScanError>
    requires { known.now ≡ names.now }
    ensures all { OnOk result (NamesAll names.now path.now) }
    ensures refused { IfErr result (λ e. IsPathRefusal names.now path.now e) }
{
    if let Some(text) = first_off(known, path) {
        return Err(ScanError::Unknown(text.copy(alloc)?));
    }
    let seen = match all_once(alloc, path) {
        Ok(seen) => seen,
        Err(error) => return Err(error),
    };
    if let Some(text) = first_off(&seen, names) {
        return Err(ScanError::Left(text.copy(alloc)?));
    }
    Ok(())
}

fn copied(alloc: Global, register: &Register) -> Result<Register, AllocError>
    ensures { IfOk result (λ copy. copy ≡ register.now) }
{
    Ok(Register {
        name: register.name.copy(alloc)?,
        place: register.place,
        loads: register.loads,
        gives: register.gives,
    })
}

// The registers of these names, in their order.
fn picked(
    alloc: Global,
    registers: &[Register],
    known: &Roll,
    path: &[Text],
) -> Result<Vec<Register>, AllocError>
    requires known { known.now ≡ names_of registers.now }
    requires there { (text : List ℕ) → In text path.now → In text known.now }
    ensures { IfOk result (λ picked. AreInOrder registers.now path.now picked.items) }
{
    let mut picked = Vec::new(alloc);
    for text in path {
        match known.place(text) {
            Some(place) => picked.push(copied(alloc, &registers[place])?)?,
            None => unreachable!(),
        }
    }
    Ok(picked)
}

/// The registers in the order of a path. It is refused, in this order, by the first name of the path that is no register's (`Unknown`),
/// the first that stood before (`Twice`), and the first register that the path lacks (`Left`). Takes memory for the registers and for
/// names; time for each name the logarithm of their number.
pub(crate) fn in_order(
    alloc: Global,
    registers: &[Register],
    path: &[Text],
) -> Result<Vec<Register>, ScanError>
    requires { AllDifferent (names_of registers.now) }
    ensures order { IfOk result (λ ordered. AreInOrder registers.now path.now ordered.items) }
    ensures all { OnOk result (NamesAll (names_of registers.now) path.now) }
    ensures refused { IfErr result (λ e. IsPathRefusal (names_of registers.now) path.now e) }
{
    let names = names_of(alloc, registers)?;
    let known = roll_of(alloc, &names)?;
    match check_path(alloc, &names, &known, path) {
        Ok(()) => Ok(picked(alloc, registers, &known, path)?),
        Err(error) => Err(error),
    }
}
