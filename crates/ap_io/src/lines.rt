// Whole lines: what is wrong with them, and what they are.
ghost use Rattle.std.specs.Prelude.{◌≡◌, ◌&&◌, IfOk, false};
ghost use Rattle.ap_io.specs.declared.scale.Scale.{Scale};
ghost use Rattle.ap_io.specs.Instances.{is_known};
ghost use Rattle.ap_io.specs.Items.{IsItem};
ghost use Rattle.ap_io.specs.LineFaults.{letter_of, behind_letter, fields_behind, has_letter, name_on, is_end, is_version, version_fault, name_line_fault, box_line_fault, segment_fault, connector_fault, via_fault, instance_fault, reference_fault, remark_fault, fault_by, item_fault};

use crate::fields::Fields;
use crate::instances::InstanceNames;
use crate::judge::{
    box_fault, connector_fault, head_fault, instance_fault, reference_fault, segment_fault,
    via_fault,
};
use crate::names::{is_blank, is_blank_line, is_text, lower};
use crate::numbers::is_number;
use crate::{LineFault, Scale, items};
use std::alloc::{AllocError, Global};
use sym_geom::Item;
use vlsi_base::Text;

/// The letter of a line, which stands in front of one blank.
#[tactic(auto, unfolding(crate::specs::LineFaults::letter_of))]
fn letter_of(line: &[u8]) -> Option<u8>
    ensures { result ≡ letter_of line.now }
{
    if line.len() > 1 && is_blank(line[1]) {
        Some(line[0])
    } else {
        None
    }
}

/// What stands behind the letter and its blank.
fn behind_letter(line: &[u8]) -> &[u8]
    ensures { result.now ≡ behind_letter line.now }
{
    if line.len() > 2 { &line[2..] } else { &[] }
}

/// The fields behind the letter and its blank.
pub fn fields_behind<'a>(line: &'a [u8]) -> Fields<'a>
    ensures { result ≡ fields_behind line.now }
{
    Fields::new(behind_letter(line))
}

/// Whether this is the letter of a line.
fn has_letter(letter: u8, line: &[u8]) -> bool
    ensures { result ≡ has_letter letter line.now }
{
    match letter_of(line) {
        Some(found) => letter == found,
        None => false,
    }
}

/// Whether a line is `V ALLIANCE : n`.
#[tactic(auto, unfolding(crate::specs::LineFaults::is_version))]
fn is_version(line: &[u8]) -> bool
    ensures { result ≡ is_version line.now }
{
    line.starts_with(b"V ALLIANCE : ") && is_number(&line[13..])
}

/// Whether a line ends the figure. Takes no memory.
pub fn is_end(line: &[u8]) -> bool
    ensures { result ≡ is_end line.now }
{
    line == b"EOF".as_slice()
}

/// What is wrong with the first line.
pub fn version_fault(line: &[u8]) -> Option<LineFault>
    ensures { result ≡ version_fault line.now }
{
    if is_version(line) {
        None
    } else {
        Some(LineFault::BadLine)
    }
}

/// What is wrong with the second line.
pub fn name_line_fault(line: &[u8]) -> Option<LineFault>
    ensures { result ≡ name_line_fault line.now }
{
    if has_letter(b'H', line) {
        head_fault(&fields_behind(line))
    } else {
        Some(LineFault::BadLine)
    }
}

/// What is wrong with the third line.
pub fn box_line_fault(scale: Scale, line: &[u8]) -> Option<LineFault>
    ensures { result ≡ box_line_fault scale line.now }
{
    if has_letter(b'A', line) {
        box_fault(scale, &fields_behind(line))
    } else {
        Some(LineFault::BadLine)
    }
}

/// What is wrong with the text of a B line.
fn remark_fault(text: &[u8]) -> Option<LineFault>
    ensures { result ≡ remark_fault text.now }
{
    if is_text(text) {
        None
    } else {
        Some(LineFault::BadLine)
    }
}

/// The name of the instance of an I line. Takes memory for its bytes.
pub fn name_on(alloc: Global, line: &[u8]) -> Result<Text, AllocError>
    ensures { IfOk result (λ name. name ≡ name_on line.now) }
{
    lower(alloc, fields_behind(line).at(3))
}

/// Whether a line is an I line. Takes no memory.
pub fn is_instance_line(line: &[u8]) -> bool
    ensures { result ≡ has_letter 73 line.now }
{
    has_letter(b'I', line)
}

/// Whether a line is an I line of a name that an instance has so far. Takes memory for that name.
pub fn is_taken(alloc: Global, names: &InstanceNames, line: &[u8]) -> Result<bool, AllocError>
    ensures { IfOk result (λ taken. taken ≡ has_letter 73 line.now && is_known (name_on line.now) names.now) }
{
    if !is_instance_line(line) {
        return Ok(false);
    }
    let name = name_on(alloc, line)?;
    Ok(names.has(name.as_bytes()))
}

/// What is wrong with a line behind the first three, where its instance's name is taken or isn't.
pub fn item_fault(scale: Scale, taken: bool, line: &[u8]) -> Option<LineFault>
    ensures { result ≡ item_fault scale taken line.now }
{
    if is_blank_line(line) {
        return None;
    }
    let fields = fields_behind(line);
    match letter_of(line) {
        Some(b'S') => segment_fault(scale, &fields),
        Some(b'C') => connector_fault(scale, &fields),
        Some(b'V') => via_fault(scale, &fields),
        Some(b'I') => instance_fault(scale, taken, &fields),
        Some(b'R') => reference_fault(scale, &fields),
        Some(b'B') => remark_fault(behind_letter(line)),
        _ => Some(LineFault::BadLine),
    }
}

/// The item of an S line. Takes memory for its name.
fn segment_item(alloc: Global, scale: Scale, line: &[u8]) -> Result<Item, AllocError>
    requires { segment_fault scale (fields_behind line.now) ≡ None }
    ensures { IfOk result (λ item. letter_of line.now ≡ Some 83 → IsItem scale line.now item) }
{
    Ok(Item::Segment(items::segment(alloc, scale, &fields_behind(line))?))
}

/// The item of a C line. Takes memory for its name.
fn connector_item(alloc: Global, scale: Scale, line: &[u8]) -> Result<Item, AllocError>
    requires { connector_fault scale (fields_behind line.now) ≡ None }
    ensures { IfOk result (λ item. letter_of line.now ≡ Some 67 → IsItem scale line.now item) }
{
    Ok(Item::Connector(items::connector(alloc, scale, &fields_behind(line))?))
}

/// The item of a V line. Takes memory for its name and its word.
fn via_item(alloc: Global, scale: Scale, line: &[u8]) -> Result<Item, AllocError>
    requires { via_fault scale (fields_behind line.now) ≡ None }
    ensures { IfOk result (λ item. letter_of line.now ≡ Some 86 → IsItem scale line.now item) }
{
    Ok(Item::Via(items::via(alloc, scale, &fields_behind(line))?))
}

/// The item of an I line. Takes memory for its names.
fn instance_item(alloc: Global, scale: Scale, line: &[u8]) -> Result<Item, AllocError>
    requires { instance_fault scale false (fields_behind line.now) ≡ None }
    ensures { IfOk result (λ item. letter_of line.now ≡ Some 73 → IsItem scale line.now item) }
{
    Ok(Item::Instance(items::instance(alloc, scale, &fields_behind(line))?))
}

/// The item of an R line. Takes memory for its word and its name.
fn reference_item(alloc: Global, scale: Scale, line: &[u8]) -> Result<Item, AllocError>
    requires { reference_fault scale (fields_behind line.now) ≡ None }
    ensures { IfOk result (λ item. letter_of line.now ≡ Some 82 → IsItem scale line.now item) }
{
    Ok(Item::Reference(items::reference(alloc, scale, &fields_behind(line))?))
}

/// The item of a B line. Takes memory for its text.
fn remark_item(alloc: Global, line: &[u8]) -> Result<Item, AllocError>
    ensures { IfOk result (λ item. letter_of line.now ≡ Some 66 → (scale : Scale) → IsItem scale line.now item) }
{
    Ok(Item::Remark(Text::from_bytes(alloc, behind_letter(line))?))
}

/// The item of a line that isn't blank and has no fault. Takes memory for its names and texts.
pub fn item(alloc: Global, scale: Scale, line: &[u8]) -> Result<Item, AllocError>
    requires { fault_by (letter_of line.now) scale false line.now ≡ None }
    ensures { IfOk result (λ item. IsItem scale line.now item) }
{
    match letter_of(line) {
        Some(b'S') => segment_item(alloc, scale, line),
        Some(b'C') => connector_item(alloc, scale, line),
        Some(b'V') => via_item(alloc, scale, line),
        Some(b'I') => instance_item(alloc, scale, line),
        Some(b'R') => reference_item(alloc, scale, line),
        _ => remark_item(alloc, line),
    }
}
