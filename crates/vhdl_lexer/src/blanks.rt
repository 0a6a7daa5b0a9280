// Blanks of a text.
ghost use Rattle.std.specs.Prelude.{◌≡◌, ◌≤◌, length};
ghost use Rattle.std.specs.List.{prefix_len};
ghost use Rattle.lexer_base.specs.Bytes.{is_blank};
ghost use Rattle.vhdl_lexer.specs.Words.{is_unblank};

use lexer_base::is_blank;

/// How many blanks a text begins with.
pub fn blanks(text: &[u8]) -> usize
    ensures count { result ≡ prefix_len is_blank text.now }
    ensures within { result ≤ length text.now }
{
    text.iter().take_while(|byte| is_blank(**byte)).count()
}

/// How many bytes other than blanks a text begins with.
pub fn unblanked(text: &[u8]) -> usize
    ensures count { result ≡ prefix_len is_unblank text.now }
    ensures within { result ≤ length text.now }
{
    text.iter().take_while(|byte| !is_blank(**byte)).count()
}
