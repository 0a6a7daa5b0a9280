// A text line by line.
ghost use Rattle.std.specs.Prelude.{◌≡◌, ◌↔◌, ◌∷◌, [], ◌+◌, ◌≤◌, drop, length, IfSome, IsNone, IsTrue};
ghost use Rattle.std.specs.List.{prefix_len};
ghost use Rattle.vlsi_base.specs.Lines.{lines_of, without_return};
ghost use Rattle.vlsi_base.specs.LineBytes.{is_on_line};

use std::marker::Model;

/// The lines of a text that are still to be read. Contracts see the list of these lines, each without the line feed
/// that ends it.
#[derive(Drop)]
pub struct Lines<'a> {
    text: &'a [u8],
}

impl<'a> Model for Lines<'a> {
    ghost use Rattle.std.specs.Prelude.{List, ℕ};
    ghost use Rattle.vlsi_base.specs.Lines.{lines_of};

    ghost Value = { List (List ℕ) };

    ghost view = { λ a. lines_of a.text.now };
}

impl<'a> Lines<'a> {
    /// All lines of a text. Takes no memory.
    pub fn new(text: &'a [u8]) -> Self
        ensures { result ≡ lines_of text.now }
    {
        Lines { text }
    }

    /// The next line, if there is one, which then counts as read. Takes no memory, and time by the bytes of the line.
    pub fn next_line(&mut self) -> Option<&'a [u8]>
        ensures some { IfSome result (λ line. self.old ≡ line.now ∷ self.new) }
        ensures none { IsNone result → self.old ≡ [] }
    {
        let text = self.text;
        if text.is_empty() {
            return None;
        }
        let length = line_length(text);
        self.text = behind(text, length);
        Some(&text[..length])
    }

    /// Whether all lines were read. Takes no memory.
    pub fn is_empty(&self) -> bool
        ensures { IsTrue result ↔ (self.now ≡ []) }
    {
        self.text.is_empty()
    }
}

/// How many bytes stand before the first line feed.
fn line_length(text: &[u8]) -> usize
    ensures count { result ≡ prefix_len is_on_line text.now }
    ensures within { result ≤ length text.now }
{
    text.iter().take_while(|byte| **byte != b'\n').count()
}

/// What stands behind the byte at a place.
fn behind(text: &[u8], place: usize) -> &[u8]
    requires { place ≤ length text.now }
    ensures { result.now ≡ drop (place + 1) text.now }
{
    if place < text.len() {
        &text[place + 1..]
    } else {
        &[]
    }
}

/// The line without the carriage return at its end, if it has one. Takes no memory.
pub fn without_return(line: &[u8]) -> &[u8]
    ensures { result.now ≡ without_return line.now }
{
    if !line.is_empty() && line[line.len() - 1] == b'\r' {
        &line[..line.len() - 1]
    } else {
        line
    }
}
