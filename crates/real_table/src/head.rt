// The first line of a table.
ghost use Rattle.std.specs.Prelude.{◌≡◌, ◌↔◌, IfSome, IsNone, IsTrue};
ghost use Rattle.real_table.specs.Bounds.{IsHeadWithin};
ghost use Rattle.real_table.specs.Process.{HasHeadWords, IsHead, IsNoHead};

use crate::fields::{field, field_count, number_in};
use crate::table::{Head, MOST_UNIT};
use crate::words::is_name;

/// Whether a line has the words of a first one.
fn has_head_words(line: &[u8]) -> bool
    ensures { IsTrue result ↔ HasHeadWords line.now }
{
    if field_count(line) != 8 {
        return false;
    }
    if field(line, 0) != b"process".as_slice() {
        return false;
    }
    if !is_name(field(line, 1)) {
        return false;
    }
    if field(line, 2) != b"unit".as_slice() {
        return false;
    }
    if field(line, 4) != b"scale".as_slice() {
        return false;
    }
    field(line, 6) == b"grid".as_slice()
}

/// The units of the line `process NAME unit D scale K grid G`.
pub fn read_head(line: &[u8]) -> Option<Head>
    ensures some { IfSome result (λ head. IsHead line.now head) }
    ensures within { IfSome result (λ head. IsHeadWithin head) }
    ensures none { IsNone result → IsNoHead line.now }
{
    if !has_head_words(line) {
        return None;
    }
    let Some(unit) = number_in(1, MOST_UNIT, field(line, 3)) else {
        return None;
    };
    let Some(scale) = number_in(1, MOST_UNIT, field(line, 5)) else {
        return None;
    };
    let Some(grid) = number_in(1, MOST_UNIT, field(line, 7)) else {
        return None;
    };
    Some(Head { unit, scale, grid })
}
