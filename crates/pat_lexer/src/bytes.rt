// Letters and digits.
ghost use Rattle.std.specs.Prelude.{◌≡◌, ◌≤◌, length};
ghost use Rattle.std.specs.List.{prefix_len};
ghost use Rattle.pat_lexer.specs.Lexical.{is_letter_or_digit};

/// Whether the byte is a letter of either case or a digit.
pub fn is_letter_or_digit(byte: u8) -> bool
    ensures { result ≡ is_letter_or_digit byte }
{
    byte.is_ascii_alphabetic() || byte.is_ascii_digit()
}

/// How many letters and digits a text begins with.
pub fn letters_and_digits(text: &[u8]) -> usize
    ensures count { result ≡ prefix_len is_letter_or_digit text.now }
    ensures within { result ≤ length text.now }
{
    text.iter()
        .take_while(|byte| is_letter_or_digit(**byte))
        .count()
}
