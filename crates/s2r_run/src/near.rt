// How two shapes of a metal are told.
ghost use Rattle.std.specs.Prelude.{◌≡◌, ◌++◌, IfOk, OnOk};
ghost use Rattle.s2r_cif.specs.Cif.{number_text};
ghost use Rattle.s2r_run.specs.RectText.{metal_text as text_of_metal, rect_text};

use std::alloc::{AllocError, Global};
use sym_geom::Rect;
use tool_drive::push_number;
use vlsi_base::FileBytes;

/// A coordinate behind a blank.
fn edge(alloc: Global, out: &mut FileBytes, n: &i64) -> Result<(), AllocError>
    ensures { OnOk result (out.new ≡ out.old ++ number_text n.now) }
{
    let text = n.to_string(alloc)?;
    out.append(b" ")?;
    out.append(text.as_bytes())
}

/// The edges of a rectangle, each behind a blank.
pub(crate) fn rectangle(alloc: Global, out: &mut FileBytes, rect: &Rect) -> Result<(), AllocError>
    ensures { OnOk result (out.new ≡ out.old ++ rect_text rect.now) }
{
    edge(alloc, out, &rect.x1)?;
    edge(alloc, out, &rect.y1)?;
    edge(alloc, out, &rect.x2)?;
    edge(alloc, out, &rect.y2)
}

/// Puts a metal and two rectangles of shapes on it behind what is there.
pub(crate) fn put_metal(
    alloc: Global,
    out: &mut FileBytes,
    metal: u8,
    a: &Rect,
    b: &Rect,
) -> Result<(), AllocError>
    ensures { OnOk result (out.new ≡ out.old ++ text_of_metal metal a.now b.now) }
{
    push_number(alloc, out, u64::from(metal))?;
    rectangle(alloc, out, a)?;
    rectangle(alloc, out, b)
}

/// A metal and two rectangles of shapes on it.
pub(crate) fn metal_text(
    alloc: Global,
    metal: u8,
    a: &Rect,
    b: &Rect,
) -> Result<FileBytes, AllocError>
    ensures { IfOk result (λ text. text ≡ text_of_metal metal a.now b.now) }
{
    let mut text = FileBytes::new(Vec::new(alloc));
    put_metal(alloc, &mut text, metal, a, b)?;
    Ok(text)
}
