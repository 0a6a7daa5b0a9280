// The words of layers, directions, sides, transforms and contacts.
ghost use Rattle.std.specs.Prelude.{◌≡◌, ◌++◌, codes, IfOk};
ghost use Rattle.ap_io.specs.Spelling.{layer_text, level_text, direction_text, side_text, transform_text};
ghost use Rattle.ap_io.specs.Words.{layer_of, layer_among, direction_of, side_of, transform_of, scale_of, is_contact, joining_contact_of, contact_of};

use crate::Scale;
use crate::names::is_text;
use std::alloc::{AllocError, Global};
use sym_geom::{Contact, Direction, Layer, Level, Side, Transform};
use vlsi_base::Text;

static LAYERS: [Layer; 37] = [
    Layer::NWell,
    Layer::PWell,
    Layer::NTie,
    Layer::PTie,
    Layer::NDif,
    Layer::PDif,
    Layer::NTrans,
    Layer::PTrans,
    Layer::Poly,
    Layer::TPoly,
    Layer::Alu(Level::One),
    Layer::Alu(Level::Two),
    Layer::Alu(Level::Three),
    Layer::Alu(Level::Four),
    Layer::Alu(Level::Five),
    Layer::Alu(Level::Six),
    Layer::Alu(Level::Seven),
    Layer::Alu(Level::Eight),
    Layer::Alu(Level::Nine),
    Layer::Calu(Level::One),
    Layer::Calu(Level::Two),
    Layer::Calu(Level::Three),
    Layer::Calu(Level::Four),
    Layer::Calu(Level::Five),
    Layer::Calu(Level::Six),
    Layer::Calu(Level::Seven),
    Layer::Calu(Level::Eight),
    Layer::Calu(Level::Nine),
    Layer::Talu(Level::One),
    Layer::Talu(Level::Two),
    Layer::Talu(Level::Three),
    Layer::Talu(Level::Four),
    Layer::Talu(Level::Five),
    Layer::Talu(Level::Six),
    Layer::Talu(Level::Seven),
    Layer::Talu(Level::Eight),
    Layer::Talu(Level::Nine),
];

/// The word of a layer.
pub fn layer_word(layer: Layer) -> &'static [u8]
    ensures { result.now ≡ layer_text layer }
{
    match layer {
        Layer::NWell => b"NWELL",
        Layer::PWell => b"PWELL",
        Layer::NTie => b"NTIE",
        Layer::PTie => b"PTIE",
        Layer::NDif => b"NDIF",
        Layer::PDif => b"PDIF",
        Layer::NTrans => b"NTRANS",
        Layer::PTrans => b"PTRANS",
        Layer::Poly => b"POLY",
        Layer::TPoly => b"TPOLY",
        Layer::Alu(level) => metal_word(level),
        Layer::Calu(level) => connector_word(level),
        Layer::Talu(level) => block_word(level),
    }
}

/// The word of a metal.
fn metal_word(level: Level) -> &'static [u8]
    ensures { result.now ≡ codes "ALU" ++ level_text level }
{
    match level {
        Level::One => b"ALU1",
        Level::Two => b"ALU2",
        Level::Three => b"ALU3",
        Level::Four => b"ALU4",
        Level::Five => b"ALU5",
        Level::Six => b"ALU6",
        Level::Seven => b"ALU7",
        Level::Eight => b"ALU8",
        Level::Nine => b"ALU9",
    }
}

/// The word of a metal that is a connector where it is named.
fn connector_word(level: Level) -> &'static [u8]
    ensures { result.now ≡ codes "CALU" ++ level_text level }
{
    match level {
        Level::One => b"CALU1",
        Level::Two => b"CALU2",
        Level::Three => b"CALU3",
        Level::Four => b"CALU4",
        Level::Five => b"CALU5",
        Level::Six => b"CALU6",
        Level::Seven => b"CALU7",
        Level::Eight => b"CALU8",
        Level::Nine => b"CALU9",
    }
}

/// The word of where a metal is kept out.
fn block_word(level: Level) -> &'static [u8]
    ensures { result.now ≡ codes "TALU" ++ level_text level }
{
    match level {
        Level::One => b"TALU1",
        Level::Two => b"TALU2",
        Level::Three => b"TALU3",
        Level::Four => b"TALU4",
        Level::Five => b"TALU5",
        Level::Six => b"TALU6",
        Level::Seven => b"TALU7",
        Level::Eight => b"TALU8",
        Level::Nine => b"TALU9",
    }
}

/// The word of a direction.
pub fn direction_word(direction: Direction) -> &'static [u8]
    ensures { result.now ≡ direction_text direction }
{
    match direction {
        Direction::Up => b"UP",
        Direction::Down => b"DOWN",
        Direction::Left => b"LEFT",
        Direction::Right => b"RIGHT",
    }
}

/// The word of a side.
pub fn side_word(side: Side) -> &'static [u8]
    ensures { result.now ≡ side_text side }
{
    match side {
        Side::North => b"NORTH",
        Side::South => b"SOUTH",
        Side::East => b"EAST",
        Side::West => b"WEST",
    }
}

/// The word of a transform.
pub fn transform_word(transform: Transform) -> &'static [u8]
    ensures { result.now ≡ transform_text transform }
{
    match transform {
        Transform::NoSym => b"NOSYM",
        Transform::SymX => b"SYM_X",
        Transform::SymY => b"SYM_Y",
        Transform::SymXY => b"SYMXY",
    }
}

/// The first of these layers that a word names.
fn layer_among(layers: &[Layer], word: &[u8]) -> Option<Layer>
    ensures { result ≡ layer_among word.now layers.now }
{
    for layer in layers {
        if layer_word(*layer) == word {
            return Some(*layer);
        }
    }
    None
}

/// The layer that a word names.
#[tactic(auto, unfolding(crate::specs::Words::layer_of))]
pub fn layer_of(word: &[u8]) -> Option<Layer>
    ensures { result ≡ layer_of word.now }
{
    layer_among(&LAYERS, word)
}

/// The direction that a word names.
#[tactic(auto, unfolding(crate::specs::Words::direction_of))]
pub fn direction_of(word: &[u8]) -> Option<Direction>
    ensures { result ≡ direction_of word.now }
{
    match word {
        b"UP" => Some(Direction::Up),
        b"DOWN" => Some(Direction::Down),
        b"LEFT" => Some(Direction::Left),
        b"RIGHT" => Some(Direction::Right),
        _ => None,
    }
}

/// The side that a word names.
#[tactic(auto, unfolding(crate::specs::Words::side_of))]
pub fn side_of(word: &[u8]) -> Option<Side>
    ensures { result ≡ side_of word.now }
{
    match word {
        b"NORTH" => Some(Side::North),
        b"SOUTH" => Some(Side::South),
        b"EAST" => Some(Side::East),
        b"WEST" => Some(Side::West),
        _ => None,
    }
}

/// The transform that a word names.
#[tactic(auto, unfolding(crate::specs::Words::transform_of))]
pub fn transform_of(word: &[u8]) -> Option<Transform>
    ensures { result ≡ transform_of word.now }
{
    match word {
        b"NOSYM" => Some(Transform::NoSym),
        b"SYM_X" => Some(Transform::SymX),
        b"SYM_Y" => Some(Transform::SymY),
        b"SYMXY" => Some(Transform::SymXY),
        _ => None,
    }
}

/// The scale that a word names.
#[tactic(auto, unfolding(crate::specs::Words::scale_of))]
pub fn scale_of(word: &[u8]) -> Option<Scale>
    ensures { result ≡ scale_of word.now }
{
    match word {
        b"1" => Some(Scale::One),
        b"10" => Some(Scale::Ten),
        b"100" => Some(Scale::Hundred),
        _ => None,
    }
}

/// Whether a word is that of a contact: it begins with CONT_ or C_X_.
#[tactic(auto, unfolding(crate::specs::Words::is_contact))]
pub fn is_contact(word: &[u8]) -> bool
    ensures { result ≡ is_contact word.now }
{
    (word.starts_with(b"CONT_") || word.starts_with(b"C_X_")) && is_text(word)
}

/// The contact of a word that joins metals.
#[tactic(auto, unfolding(crate::specs::Words::joining_contact_of))]
fn joining_contact_of(word: &[u8]) -> Option<Contact>
    ensures { result ≡ joining_contact_of word.now }
{
    if word == b"CONT_VIA".as_slice() {
        Some(Contact::Via1)
    } else if word == b"CONT_VIA2".as_slice() {
        Some(Contact::Via2)
    } else if word == b"CONT_VIA3".as_slice() {
        Some(Contact::Via3)
    } else if word == b"CONT_VIA4".as_slice() {
        Some(Contact::Via4)
    } else if word == b"CONT_VIA5".as_slice() {
        Some(Contact::Via5)
    } else {
        None
    }
}

/// The contact of a word. Takes memory for the word of one that joins no metals.
pub fn contact_of(alloc: Global, word: &[u8]) -> Result<Contact, AllocError>
    ensures { IfOk result (λ contact. contact ≡ contact_of word.now) }
{
    match joining_contact_of(word) {
        Some(contact) => Ok(contact),
        None => Ok(Contact::Other(Text::from_bytes(alloc, word)?)),
    }
}
