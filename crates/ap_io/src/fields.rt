// The fields of a line.
ghost use Rattle.std.specs.Prelude.{◌≡◌, ◌+◌, ◌≤◌, ◌<◌, ◌==◌, length, take, drop};
ghost use Rattle.std.specs.List.{prefix_len, count_by, list_all};
ghost use Rattle.ap_io.specs.Fields.{fields_of, at, is_number, is_in_field};

use crate::numbers::is_number;
use std::marker::Model;

/// The fields of a line, which stand between its commas. Contracts see their list.
#[derive(Drop)]
pub struct Fields<'a> {
    text: &'a [u8],
}

impl<'a> Model for Fields<'a> {
    ghost use Rattle.std.specs.Prelude.{List, ℕ};
    ghost use Rattle.ap_io.specs.Fields.{fields_of};

    ghost Value = { List (List ℕ) };

    ghost view = { λ a. fields_of a.text.now };
}

impl<'a> Fields<'a> {
    /// The fields of this text. Takes no memory.
    pub fn new(text: &'a [u8]) -> Self
        ensures { result ≡ fields_of text.now }
    {
        Fields { text }
    }

    /// How many fields there are: one more than commas.
    pub fn count(&self) -> usize
        ensures { result ≡ length self.now }
    {
        1 + commas(self.text)
    }

    /// The field of this number, counted from 0; no bytes where there is none.
    pub fn at(&self, number: usize) -> &'a [u8]
        ensures { result.now ≡ at self.now number }
    {
        let mut rest = self.text;
        for _ in 0..number {
            rest = behind_comma(rest);
        }
        &rest[..field_length(rest)]
    }

    /// Whether the first fields, as many as `count`, are numbers.
    pub fn begin_with_numbers(&self, count: usize) -> bool
        requires { count ≤ length self.now }
        ensures { result ≡ list_all is_number (take count self.now) }
    {
        for number in 0..count {
            if !is_number(self.at(number)) {
                return false;
            }
        }
        true
    }
}

/// How many commas there are.
fn commas(text: &[u8]) -> usize
    ensures count { result ≡ count_by (λ b. b == 44) text.now }
    ensures within { result ≤ length text.now }
{
    text.iter().filter(|byte| **byte == b',').count()
}

/// How many bytes stand before the first comma.
fn field_length(text: &[u8]) -> usize
    ensures count { result ≡ prefix_len is_in_field text.now }
    ensures within { result ≤ length text.now }
{
    text.iter().take_while(|byte| **byte != b',').count()
}

/// What stands behind the first comma; nothing where there is none.
fn behind_comma(text: &[u8]) -> &[u8]
    ensures { result.now ≡ drop (prefix_len is_in_field text.now + 1) text.now }
{
    let length = field_length(text);
    if length < text.len() {
        &text[length + 1..]
    } else {
        &[]
    }
}
