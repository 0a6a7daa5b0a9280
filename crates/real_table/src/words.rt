// The words of layers and contacts, and names.
ghost use Rattle.std.specs.Prelude.{◌≡◌, slice_index};
ghost use Rattle.std.specs.Char.{is_ascii_alphabetic};
ghost use Rattle.std.specs.List.{list_all};
ghost use Rattle.real_table.specs.Words.{is_contact as is_contact_word, is_identifier as is_identifier_text, is_in_word as is_in_word_byte, is_layer as is_layer_word, is_level as is_level_text, is_level_of, is_diffusion_layer as is_diffusion_word, is_gate_layer as is_gate_word, is_metal_layer as is_metal_layer_word, is_name as is_name_word, is_transistor_layer as is_transistor_word, is_well_layer as is_well_word};

/// The most bytes of a name.
pub const MOST_NAME_BYTES: usize = 64;

/// Whether a text is one digit from 1 to 9.
fn is_level(text: &[u8]) -> bool
    ensures { result ≡ is_level_text text.now }
{
    text.len() == 1 && 49 <= text[0] && text[0] <= 57
}

/// Whether a word is this one and a level.
fn is_level_behind(family: &[u8], word: &[u8]) -> bool
    ensures { result ≡ is_level_of family.now word.now }
{
    word.starts_with(family) && is_level(&word[family.len()..])
}

/// Whether a word is that of a well or a tie.
#[tactic(auto, unfolding(crate::specs::Words::is_well_layer))]
fn is_well_layer(word: &[u8]) -> bool
    ensures { result ≡ is_well_word word.now }
{
    match word {
        b"NWELL" | b"PWELL" | b"NTIE" | b"PTIE" => true,
        _ => false,
    }
}

/// Whether a word is that of a diffusion.
#[tactic(auto, unfolding(crate::specs::Words::is_diffusion_layer))]
fn is_diffusion_layer(word: &[u8]) -> bool
    ensures { result ≡ is_diffusion_word word.now }
{
    match word {
        b"NDIF" | b"PDIF" => true,
        _ => false,
    }
}

/// Whether a word is that of a transistor.
#[tactic(auto, unfolding(crate::specs::Words::is_transistor_layer))]
fn is_transistor_layer(word: &[u8]) -> bool
    ensures { result ≡ is_transistor_word word.now }
{
    word == b"NTRANS".as_slice() || word == b"PTRANS".as_slice()
}

/// Whether a word is that of polysilicon, or of where it is kept out.
#[tactic(auto, unfolding(crate::specs::Words::is_gate_layer))]
fn is_gate_layer(word: &[u8]) -> bool
    ensures { result ≡ is_gate_word word.now }
{
    match word {
        b"POLY" | b"TPOLY" => true,
        _ => false,
    }
}

/// Whether a word is that of a layer of a metal.
#[tactic(auto, unfolding(crate::specs::Words::is_metal_layer))]
fn is_metal_layer(word: &[u8]) -> bool
    ensures { result ≡ is_metal_layer_word word.now }
{
    is_level_behind(b"ALU", word)
        || is_level_behind(b"CALU", word)
        || is_level_behind(b"TALU", word)
}

/// Whether a word is that of a symbolic layer.
pub fn is_layer(word: &[u8]) -> bool
    ensures { result ≡ is_layer_word word.now }
{
    is_well_layer(word)
        || is_diffusion_layer(word)
        || is_transistor_layer(word)
        || is_gate_layer(word)
        || is_metal_layer(word)
}

/// Whether a word is that of a contact.
#[tactic(auto, unfolding(crate::specs::Words::is_contact))]
pub fn is_contact(word: &[u8]) -> bool
    ensures { result ≡ is_contact_word word.now }
{
    word.starts_with(b"CONT_") || word.starts_with(b"C_X_")
}

/// Whether a byte is a letter, a digit or an underscore.
fn is_in_word(byte: u8) -> bool
    ensures { result ≡ is_in_word_byte byte }
{
    byte.is_ascii_alphabetic() || byte.is_ascii_digit() || byte == b'_'
}

fn all_in_word(text: &[u8]) -> bool
    ensures { result ≡ list_all is_in_word_byte text.now }
{
    text.iter().all(|byte| is_in_word(*byte))
}

/// Whether a text begins with a letter.
fn begins_with_letter(text: &[u8]) -> bool
    ensures { result ≡ is_ascii_alphabetic (slice_index text.now 0) }
{
    !text.is_empty() && text[0].is_ascii_alphabetic()
}

fn is_identifier(text: &[u8]) -> bool
    ensures { result ≡ is_identifier_text text.now }
{
    begins_with_letter(text) && all_in_word(text)
}

/// Whether a word may name a real layer, or a process: an identifier of at most 64 bytes.
pub fn is_name(word: &[u8]) -> bool
    ensures { result ≡ is_name_word word.now }
{
    is_identifier(word) && word.len() <= MOST_NAME_BYTES
}
