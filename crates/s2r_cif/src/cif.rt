// Real layouts as CIF files.
ghost use Rattle.std.specs.Prelude.{◌≡◌, ◌+ℤ◌, ◌-ℤ◌, pos, int_div, ◌++◌, IfOk, OnOk};
ghost use Rattle.s2r_cif.specs.Cif.{box_text, boxes_text, centre_text, cif_text, has_level as is_there, heading_text, layer_text, layers_text, number_text, size_text};
ghost use Rattle.s2r_cif.specs.Real.{AreRealBoxes, HasRealEdges, IsRealEdge, IsRealLayout};

use crate::layout::{RealBox, RealLayout};
use std::alloc::{AllocError, Global};
use sym_geom::Rect;
use vlsi_base::FileBytes;

/// The numbers of the metals; a cut has that of the lower of the two that it joins.
const LEVELS: [u8; 6] = [1, 2, 3, 4, 5, 6];

/// A number behind a blank.
fn number(alloc: Global, out: &mut FileBytes, n: &i64) -> Result<(), AllocError>
    ensures { OnOk result (out.new ≡ out.old ++ number_text n.now) }
{
    let text = n.to_string(alloc)?;
    out.append(b" ")?;
    out.append(text.as_bytes())
}

/// How far it is from one edge of a box to the other.
fn span(from: &i64, to: &i64) -> i64
    requires from_fits { IsRealEdge from.now }
    requires to_fits { IsRealEdge to.now }
    ensures { result ≡ to.now -ℤ from.now }
{
    *to - *from
}

/// What lies in the middle of two edges of a box.
fn middle(from: &i64, to: &i64) -> i64
    requires from_fits { IsRealEdge from.now }
    requires to_fits { IsRealEdge to.now }
    ensures { result ≡ int_div (from.now +ℤ to.now) (pos 2) }
{
    (*from + *to) / 2
}

/// How long a box is along x, and how wide along y.
fn sizes(alloc: Global, out: &mut FileBytes, rect: &Rect) -> Result<(), AllocError>
    requires { HasRealEdges rect.now }
    ensures { OnOk result (out.new ≡ out.old ++ size_text rect.now) }
{
    number(alloc, out, &span(&rect.x1, &rect.x2))?;
    number(alloc, out, &span(&rect.y1, &rect.y2))
}

/// The point in the middle of a box.
fn centre(alloc: Global, out: &mut FileBytes, rect: &Rect) -> Result<(), AllocError>
    requires { HasRealEdges rect.now }
    ensures { OnOk result (out.new ≡ out.old ++ centre_text rect.now) }
{
    number(alloc, out, &middle(&rect.x1, &rect.x2))?;
    number(alloc, out, &middle(&rect.y1, &rect.y2))
}

/// The line of a box.
fn box_line(alloc: Global, out: &mut FileBytes, one: &RealBox) -> Result<(), AllocError>
    requires { HasRealEdges one.now.rect }
    ensures { OnOk result (out.new ≡ out.old ++ box_text one.now) }
{
    out.append(b"B")?;
    sizes(alloc, out, &one.rect)?;
    centre(alloc, out, &one.rect)?;
    out.append(b";\n")
}

/// The lines of the boxes of a level.
fn box_lines(
    alloc: Global,
    out: &mut FileBytes,
    level: u8,
    boxes: &[RealBox],
) -> Result<(), AllocError>
    requires { AreRealBoxes boxes.now }
    ensures { OnOk result (out.new ≡ out.old ++ boxes_text level boxes.now) }
{
    for one in boxes {
        if one.level == level {
            box_line(alloc, out, one)?;
        }
    }
    Ok(())
}

/// The line that begins a layer.
fn heading(alloc: Global, out: &mut FileBytes, letter: u8, level: u8) -> Result<(), AllocError>
    ensures { OnOk result (out.new ≡ out.old ++ heading_text letter level) }
{
    let number = level.to_string(alloc)?;
    out.append(b"L ")?;
    out.append(&[letter])?;
    out.append(number.as_bytes())?;
    out.append(b";\n")
}

/// Whether some box is of a level.
fn has_level(level: u8, boxes: &[RealBox]) -> bool
    ensures { result ≡ is_there level boxes.now }
{
    boxes.iter().any(|one| one.level == level)
}

/// A layer, if some box is of its level.
fn layer(
    alloc: Global,
    out: &mut FileBytes,
    letter: u8,
    level: u8,
    boxes: &[RealBox],
) -> Result<(), AllocError>
    requires { AreRealBoxes boxes.now }
    ensures { OnOk result (out.new ≡ out.old ++ layer_text letter level boxes.now) }
{
    if !has_level(level, boxes) {
        return Ok(());
    }
    heading(alloc, out, letter, level)?;
    box_lines(alloc, out, level, boxes)
}

/// The layers of some levels.
fn layers(
    alloc: Global,
    out: &mut FileBytes,
    letter: u8,
    levels: &[u8],
    boxes: &[RealBox],
) -> Result<(), AllocError>
    requires { AreRealBoxes boxes.now }
    ensures { OnOk result (out.new ≡ out.old ++ layers_text letter levels.now boxes.now) }
{
    for level in levels {
        layer(alloc, out, letter, *level, boxes)?;
    }
    Ok(())
}

/// The CIF file of a real layout: one symbol, called once, whose numbers count halves of a real unit, with the layers M1 to M6 of the
/// metals and V1 to V5 of the cuts, and a line for each box. Takes memory for the file.
pub fn write_cif(alloc: Global, layout: &RealLayout) -> Result<FileBytes, AllocError>
    requires { IsRealLayout layout.now }
    ensures { IfOk result (λ bytes. bytes ≡ cif_text layout.now) }
{
    let mut out = FileBytes::from_bytes(alloc, b"DS 1 1 2;\n")?;
    layers(alloc, &mut out, b'M', &LEVELS, layout.boxes.as_slice())?;
    layers(alloc, &mut out, b'V', &LEVELS, layout.cuts.as_slice())?;
    out.append(b"DF;\nC 1;\nE\n")?;
    Ok(out)
}
