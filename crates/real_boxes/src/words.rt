// The words of layers and contacts, as ap files have them.
ghost use Rattle.std.specs.Prelude.{◌≡◌, ◌++◌, IfOk};
ghost use Rattle.ap_io.specs.Spelling.{contact_text, layer_text as text_of_layer, level_text as text_of_level};

use std::alloc::{AllocError, Global};
use sym_geom::{Contact, Layer, Level};
use vlsi_base::Text;

/// The digit of a level.
fn level_text(level: Level) -> &'static [u8]
    ensures { result.now ≡ text_of_level level }
{
    match level {
        Level::One => b"1",
        Level::Two => b"2",
        Level::Three => b"3",
        Level::Four => b"4",
        Level::Five => b"5",
        Level::Six => b"6",
        Level::Seven => b"7",
        Level::Eight => b"8",
        Level::Nine => b"9",
    }
}

/// The word of a metal's layer.
fn metal_word(alloc: Global, family: &[u8], level: Level) -> Result<Text, AllocError>
    ensures { IfOk result (λ word. word ≡ family.now ++ text_of_level level) }
{
    let mut word = Text::from_bytes(alloc, family)?;
    word.append(level_text(level))?;
    Ok(word)
}

/// The word of a layer.
pub fn layer_word(alloc: Global, layer: Layer) -> Result<Text, AllocError>
    ensures { IfOk result (λ word. word ≡ text_of_layer layer) }
{
    match layer {
        Layer::NWell => Text::from_bytes(alloc, b"NWELL"),
        Layer::PWell => Text::from_bytes(alloc, b"PWELL"),
        Layer::NTie => Text::from_bytes(alloc, b"NTIE"),
        Layer::PTie => Text::from_bytes(alloc, b"PTIE"),
        Layer::NDif => Text::from_bytes(alloc, b"NDIF"),
        Layer::PDif => Text::from_bytes(alloc, b"PDIF"),
        Layer::NTrans => Text::from_bytes(alloc, b"NTRANS"),
        Layer::PTrans => Text::from_bytes(alloc, b"PTRANS"),
        Layer::Poly => Text::from_bytes(alloc, b"POLY"),
        Layer::TPoly => Text::from_bytes(alloc, b"TPOLY"),
        Layer::Alu(level) => metal_word(alloc, b"ALU", level),
        Layer::Calu(level) => metal_word(alloc, b"CALU", level),
        Layer::Talu(level) => metal_word(alloc, b"TALU", level),
    }
}

/// The word of a contact.
pub fn contact_word(alloc: Global, contact: &Contact) -> Result<Text, AllocError>
    ensures { IfOk result (λ word. word ≡ contact_text contact.now) }
{
    match contact {
        Contact::Via1 => Text::from_bytes(alloc, b"CONT_VIA"),
        Contact::Via2 => Text::from_bytes(alloc, b"CONT_VIA2"),
        Contact::Via3 => Text::from_bytes(alloc, b"CONT_VIA3"),
        Contact::Via4 => Text::from_bytes(alloc, b"CONT_VIA4"),
        Contact::Via5 => Text::from_bytes(alloc, b"CONT_VIA5"),
        Contact::Other(word) => word.copy(alloc),
    }
}
