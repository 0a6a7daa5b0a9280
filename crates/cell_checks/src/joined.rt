// What the checks ask of joined shapes, by numbers that tell which are joined.
ghost use Rattle.std.specs.Prelude.{◌≡◌, ◌↔◌, ◌⊎◌, ◌≤ℤ◌, ◌-ℤ◌, pos, length, IsTrue, IfSome, IfNone, All, AllPairs, Some};
ghost use Rattle.sym_geom.specs.Rect.{Apart};
ghost use Rattle.cell_checks.specs.Shapes.{AreNumbered, HasNumber, IsNoConnector, AreApart, KeepsOff};

use crate::shapes::{is_apart, is_named};
use sym_geom::{LEAST_GAP, Rect};
use sym_shapes::Shape;
use vlsi_base::Name;

/// The number of the first connector of this name.
fn number_of(shapes: &[Shape], numbers: &[u32], name: &Name) -> Option<u32>
    requires { length numbers.now ≡ length shapes.now }
    ensures number { IfSome result (λ n. HasNumber shapes.now numbers.now name.now n) }
    ensures none { IfNone result (All (IsNoConnector name.now) shapes.now) }
{
    for i in 0..shapes.len() {
        if is_named(&shapes[i], name) {
            return Some(numbers[i]);
        }
    }
    None
}

/// Whether no connector of one name is joined to one of another.
fn have_apart(shapes: &[Shape], numbers: &[u32], one: &Name, other: &Name) -> bool
    requires { AreNumbered shapes.now numbers.now }
    ensures { IsTrue result ↔ AreApart shapes.now one.now other.now }
{
    let Some(first) = number_of(shapes, numbers, one) else {
        return true;
    };
    let Some(second) = number_of(shapes, numbers, other) else {
        return true;
    };
    first != second
}

/// Whether no connector of a name is joined to one of these names.
fn is_apart_from(shapes: &[Shape], numbers: &[u32], names: &[Name], name: &Name) -> bool
    requires { AreNumbered shapes.now numbers.now }
    ensures { IsTrue result ↔ All (λ m. AreApart shapes.now m name.now) names.now }
{
    for other in names {
        if !have_apart(shapes, numbers, other, name) {
            return false;
        }
    }
    true
}

/// Whether no connectors of two names of a list are joined. Takes time by the square of the names.
pub fn are_apart(shapes: &[Shape], numbers: &[u32], names: &[Name]) -> bool
    requires { AreNumbered shapes.now numbers.now }
    ensures { IsTrue result ↔ AllPairs (AreApart shapes.now) names.now }
{
    for i in 0..names.len() {
        if !is_apart_from(shapes, numbers, &names[..i], &names[i]) {
            return false;
        }
    }
    true
}

/// Whether a shape of metal 1 has the number of a supply, if that has one, or is far enough from its strip.
fn is_tied_or_apart(shape: &Shape, number: u32, tied: Option<u32>, strip: &Rect) -> bool
    requires x1 { (pos 0 -ℤ pos 1000000000000000) ≤ℤ strip.now.x1 }
    requires y1 { (pos 0 -ℤ pos 1000000000000000) ≤ℤ strip.now.y1 }
    requires x2 { strip.now.x2 ≤ℤ pos 1000000000000000 }
    requires y2 { strip.now.y2 ≤ℤ pos 1000000000000000 }
    ensures { IsTrue result ↔ (shape.now.metal ≡ 1 → (tied ≡ Some number) ⊎ Apart LEAST_GAP shape.now.rect strip.now) }
{
    if shape.metal() != 1 {
        return true;
    }
    if tied == Some(number) {
        return true;
    }
    is_apart(&shape.rect(), strip)
}

/// Whether each shape of metal 1 is joined to a connector of this name, or far enough from a strip.
pub fn keep_off(shapes: &[Shape], numbers: &[u32], name: &Name, strip: &Rect) -> bool
    requires numbered { AreNumbered shapes.now numbers.now }
    requires x1 { (pos 0 -ℤ pos 1000000000000000) ≤ℤ strip.now.x1 }
    requires y1 { (pos 0 -ℤ pos 1000000000000000) ≤ℤ strip.now.y1 }
    requires x2 { strip.now.x2 ≤ℤ pos 1000000000000000 }
    requires y2 { strip.now.y2 ≤ℤ pos 1000000000000000 }
    ensures { IsTrue result ↔ All (KeepsOff shapes.now name.now strip.now) shapes.now }
{
    let tied = number_of(shapes, numbers, name);
    for i in 0..shapes.len() {
        if !is_tied_or_apart(&shapes[i], numbers[i], tied, strip) {
            return false;
        }
    }
    true
}
