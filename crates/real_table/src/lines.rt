// The lines of a table behind the first one.
ghost use Rattle.std.specs.Prelude.{◌≡◌, ◌↔◌, ◌≤◌, ℕ, ℤ, List, IfOk, IfSome, IsNone, IsTrue};
ghost use Rattle.real_table.specs.Bounds.{IsEntryWithin, IsGrowth, IsLength};
ghost use Rattle.real_table.specs.Lines.{IsContactGrowth, IsContactHead, IsContactLine, IsEntry, IsGdsLine, IsLabelLine, IsLengthAt, IsMetalLine, IsMove, IsNoEntry, IsRemark, IsSegmentGrowth, IsSegmentHead, IsSegmentLine, IsSpaceLine, word_at};
ghost use Rattle.real_table.specs.declared.table.Entry.TheVariants as entry;
ghost use Rattle.real_table.specs.declared.table.Growth.{Growth as Grows};
ghost use Rattle.real_table.specs.declared.table.Rule.{Rule as RuleParts};
ghost use Rattle.real_table.specs.declared.table.Entry.{Entry as EntryParts};

use crate::fields::{field, field_count, number_in, signed_in};
use crate::table::{Entry, Growth, MOST_GDS, MOST_LENGTH, MOST_METAL, Rule};
use crate::words::{is_contact, is_layer, is_name};
use std::alloc::{AllocError, Global};
use vlsi_base::Text;

/// The length of this field.
fn length_at(line: &[u8], number: usize) -> Option<i64>
    ensures some { IfSome result (λ n. IsLengthAt line.now number n) }
    ensures within { IfSome result (λ n. IsLength n) }
    ensures none { IsNone result → (n : ℤ) → IsLengthAt line.now number n → ⊥ }
{
    signed_in(MOST_LENGTH, field(line, number))
}

/// The two lengths from this field on, by which boxes move: none where the line ends before it.
fn read_move(line: &[u8], number: usize) -> Option<(i64, i64)>
    requires { number ≤ 5 }
    ensures some { IfSome result (λ m. IsMove line.now number m.0 m.1) }
    ensures x_within { IfSome result (λ m. IsLength m.0) }
    ensures y_within { IfSome result (λ m. IsLength m.1) }
    ensures none { IsNone result → (x y : ℤ) → IsMove line.now number x y → ⊥ }
{
    let count = field_count(line);
    if count == number {
        return Some((0, 0));
    }
    if count != number + 2 {
        return None;
    }
    let Some(x) = length_at(line, number) else {
        return None;
    };
    let Some(y) = length_at(line, number + 1) else {
        return None;
    };
    Some((x, y))
}

fn is_segment_head(line: &[u8]) -> bool
    ensures { IsTrue result ↔ IsSegmentHead line.now }
{
    if field(line, 0) != b"segment".as_slice() {
        return false;
    }
    if !is_layer(field(line, 1)) {
        return false;
    }
    is_name(field(line, 2))
}

fn segment_growth(line: &[u8]) -> Option<Growth>
    ensures some { IfSome result (λ g. IsSegmentGrowth line.now g) }
    ensures within { IfSome result (λ g. IsGrowth g) }
    ensures none { IsNone result → (g : Grows) → IsSegmentGrowth line.now g → ⊥ }
{
    let Some(along) = length_at(line, 3) else {
        return None;
    };
    let Some(across) = length_at(line, 4) else {
        return None;
    };
    let Some((x, y)) = read_move(line, 5) else {
        return None;
    };
    Some(Growth {
        along,
        across,
        x,
        y,
    })
}

/// The rule of these words, the second and the third of the line.
fn rule_of(alloc: Global, line: &[u8], growth: Growth) -> Result<Rule, AllocError>
    ensures { IfOk result (λ r. r ≡ record { word = word_at line.now 1; real = word_at line.now 2; growth = growth }) }
{
    let word = Text::from_bytes(alloc, field(line, 1))?;
    let real = Text::from_bytes(alloc, field(line, 2))?;
    Ok(Rule { word, real, growth })
}

fn segment_rule(alloc: Global, line: &[u8]) -> Result<Option<Rule>, AllocError>
    ensures some { IfOk result (λ o. IfSome o (λ r. IsSegmentLine line.now r)) }
    ensures within { IfOk result (λ o. IfSome o (λ r. IsGrowth r.growth)) }
    ensures none { IfOk result (λ o. IsNone o → (r : RuleParts) → IsSegmentLine line.now r → ⊥) }
{
    if !is_segment_head(line) {
        return Ok(None);
    }
    let Some(growth) = segment_growth(line) else {
        return Ok(None);
    };
    Ok(Some(rule_of(alloc, line, growth)?))
}

fn is_contact_head(line: &[u8]) -> bool
    ensures { IsTrue result ↔ IsContactHead line.now }
{
    if field(line, 0) != b"contact".as_slice() {
        return false;
    }
    if !is_contact(field(line, 1)) {
        return false;
    }
    is_name(field(line, 2))
}

fn contact_growth(line: &[u8]) -> Option<Growth>
    ensures some { IfSome result (λ g. IsContactGrowth line.now g) }
    ensures within { IfSome result (λ g. IsGrowth g) }
    ensures none { IsNone result → (g : Grows) → IsContactGrowth line.now g → ⊥ }
{
    let Some(size) = number_in(2, MOST_LENGTH, field(line, 3)) else {
        return None;
    };
    if size % 2 != 0 {
        return None;
    }
    let Some((x, y)) = read_move(line, 4) else {
        return None;
    };
    let half = i64::from(size / 2);
    Some(Growth {
        along: half,
        across: half,
        x,
        y,
    })
}

fn contact_rule(alloc: Global, line: &[u8]) -> Result<Option<Rule>, AllocError>
    ensures some { IfOk result (λ o. IfSome o (λ r. IsContactLine line.now r)) }
    ensures within { IfOk result (λ o. IfSome o (λ r. IsGrowth r.growth)) }
    ensures none { IfOk result (λ o. IsNone o → (r : RuleParts) → IsContactLine line.now r → ⊥) }
{
    if !is_contact_head(line) {
        return Ok(None);
    }
    let Some(growth) = contact_growth(line) else {
        return Ok(None);
    };
    Ok(Some(rule_of(alloc, line, growth)?))
}

/// The metal of the line `metal M REAL`.
fn metal_number(line: &[u8]) -> Option<u8>
    ensures some { IfSome result (λ m. IsMetalLine line.now m (word_at line.now 2)) }
    ensures none { IsNone result → (m : ℕ) (real : List ℕ) → IsMetalLine line.now m real → ⊥ }
{
    if field_count(line) != 3 {
        return None;
    }
    if field(line, 0) != b"metal".as_slice() {
        return None;
    }
    if !is_name(field(line, 2)) {
        return None;
    }
    let Some(metal) = number_in(1, MOST_METAL, field(line, 1)) else {
        return None;
    };
    Some(metal as u8)
}

/// The gap of the line `space REAL GAP`.
fn space_gap(line: &[u8]) -> Option<u32>
    ensures some { IfSome result (λ gap. IsSpaceLine line.now (word_at line.now 1) gap) }
    ensures none { IsNone result → (real : List ℕ) (gap : ℕ) → IsSpaceLine line.now real gap → ⊥ }
{
    if field_count(line) != 3 {
        return None;
    }
    if field(line, 0) != b"space".as_slice() {
        return None;
    }
    if !is_name(field(line, 1)) {
        return None;
    }
    number_in(0, MOST_LENGTH, field(line, 2))
}

fn is_label(line: &[u8]) -> bool
    ensures { IsTrue result ↔ IsLabelLine line.now (word_at line.now 1) (word_at line.now 2) }
{
    if field_count(line) != 3 {
        return false;
    }
    if field(line, 0) != b"label".as_slice() {
        return false;
    }
    if !is_layer(field(line, 1)) {
        return false;
    }
    is_name(field(line, 2))
}

fn is_gds(line: &[u8]) -> bool
    ensures { IsTrue result ↔ IsGdsLine line.now }
{
    if field_count(line) != 4 {
        return false;
    }
    if field(line, 0) != b"gds".as_slice() {
        return false;
    }
    if !is_name(field(line, 1)) {
        return false;
    }
    if number_in(0, MOST_GDS, field(line, 2)).is_none() {
        return false;
    }
    number_in(0, MOST_GDS, field(line, 3)).is_some()
}

fn is_remark(line: &[u8]) -> bool
    ensures { IsTrue result ↔ IsRemark line.now }
{
    line.is_empty() || line.starts_with(b"#")
}

/// What a line says of boxes, if it does.
fn read_rule(alloc: Global, line: &[u8]) -> Result<Option<Rule>, AllocError>
    ensures some { IfOk result (λ o. IfSome o (λ r. IsEntry line.now (entry.Rule r))) }
    ensures within { IfOk result (λ o. IfSome o (λ r. IsGrowth r.growth)) }
    ensures no_segment { IfOk result (λ o. IsNone o → (r : RuleParts) → IsSegmentLine line.now r → ⊥) }
    ensures no_contact { IfOk result (λ o. IsNone o → (r : RuleParts) → IsContactLine line.now r → ⊥) }
{
    if let Some(rule) = segment_rule(alloc, line)? {
        return Ok(Some(rule));
    }
    contact_rule(alloc, line)
}

/// What a line says of names and spaces, if it does.
fn read_name(alloc: Global, line: &[u8]) -> Result<Option<Entry>, AllocError>
    ensures some { IfOk result (λ o. IfSome o (λ e. IsEntry line.now e)) }
    ensures within { IfOk result (λ o. IfSome o (λ e. IsEntryWithin e)) }
    ensures no_metal { IfOk result (λ o. IsNone o → (m : ℕ) (real : List ℕ) → IsMetalLine line.now m real → ⊥) }
    ensures no_space { IfOk result (λ o. IsNone o → (real : List ℕ) (gap : ℕ) → IsSpaceLine line.now real gap → ⊥) }
    ensures no_label { IfOk result (λ o. IsNone o → (layer real : List ℕ) → IsLabelLine line.now layer real → ⊥) }
{
    if let Some(metal) = metal_number(line) {
        let real = Text::from_bytes(alloc, field(line, 2))?;
        return Ok(Some(Entry::Metal { metal, real }));
    }
    if let Some(gap) = space_gap(line) {
        let real = Text::from_bytes(alloc, field(line, 1))?;
        return Ok(Some(Entry::Space { real, gap }));
    }
    if !is_label(line) {
        return Ok(None);
    }
    let layer = Text::from_bytes(alloc, field(line, 1))?;
    let real = Text::from_bytes(alloc, field(line, 2))?;
    Ok(Some(Entry::Label { layer, real }))
}

/// What a line says, if it has one of the forms. Takes memory for its words.
pub fn read_entry(alloc: Global, line: &[u8]) -> Result<Option<Entry>, AllocError>
    ensures some { IfOk result (λ o. IfSome o (λ e. IsEntry line.now e)) }
    ensures within { IfOk result (λ o. IfSome o (λ e. IsEntryWithin e)) }
    ensures none { IfOk result (λ o. IsNone o → IsNoEntry line.now) }
{
    if let Some(rule) = read_rule(alloc, line)? {
        return Ok(Some(Entry::Rule(rule)));
    }
    if let Some(entry) = read_name(alloc, line)? {
        return Ok(Some(entry));
    }
    if is_gds(line) {
        return Ok(Some(Entry::Nothing));
    }
    if is_remark(line) {
        return Ok(Some(Entry::Nothing));
    }
    Ok(None)
}
