// Names that none of some others is.
ghost use Rattle.std.specs.Prelude.{◌≡◌, ◌<◌, ◌^◌, ◌+◌, ◌++◌, ◌∷◌, [], length, IfOk, OnOk, if◌then◌else◌};
ghost use Rattle.text_names.specs.Free.{numbered, free_texts, IsFirstFree};
ghost use Rattle.text_names.specs.Known.{is_known};

use crate::taken::Taken;
use std::alloc::{AllocError, Global};
use vlsi_base::{Text, push_u64};

// The stem and a number.
fn numbered(alloc: Global, stem: &[u8], number: u64) -> Result<Text, AllocError>
    ensures { IfOk result (λ text. text ≡ numbered stem.now number) }
{
    let mut text = Text::from_bytes(alloc, stem)?;
    push_u64(alloc, &mut text, number)?;
    Ok(text)
}

// Puts the stem with a number behind the texts, unless that is taken.
fn push_free(
    alloc: Global,
    stem: &[u8],
    taken: &Taken,
    number: u64,
    texts: &mut Vec<Text>,
) -> Result<(), AllocError>
    ensures { OnOk result (texts.new.items ≡ texts.old.items ++ (if is_known (numbered stem.now number) taken.now then [] else numbered stem.now number ∷ [])) }
{
    let text = numbered(alloc, stem, number)?;
    if !taken.has(text.as_bytes()) {
        texts.push(text)?;
    }
    Ok(())
}

/// So many texts of the stem with a number behind it, in the order of these numbers, without those that are taken. Takes memory for
/// the texts, and time for each the logarithm of how many are taken.
pub fn free_texts(
    alloc: Global,
    stem: &[u8],
    taken: &[Text],
    many: usize,
) -> Result<Vec<Text>, AllocError>
    requires { many + length taken.now < 2 ^ 63 }
    ensures { IfOk result (λ texts. texts.items ≡ free_texts stem.now taken.now many) }
{
    let set = Taken::new(alloc, taken)?;
    let mut texts = Vec::new(alloc);
    for number in 0..many + taken.len() {
        if texts.len() == many {
            return Ok(texts);
        }
        push_free(alloc, stem, &set, number as u64, &mut texts)?;
    }
    Ok(texts)
}

/// The first text that isn't taken, of the stem alone and of the stem with 0, 1, and so on behind it.
pub fn first_free(alloc: Global, stem: &[u8], taken: &[Text]) -> Result<Text, AllocError>
    requires { length taken.now < 2 ^ 63 }
    ensures { IfOk result (λ text. IsFirstFree stem.now taken.now text) }
{
    let set = Taken::new(alloc, taken)?;
    let mut text = Text::from_bytes(alloc, stem)?;
    for number in 0..taken.len() {
        if !set.has(text.as_bytes()) {
            return Ok(text);
        }
        text = numbered(alloc, stem, number as u64)?;
    }
    Ok(text)
}
