// The lines of breaches.
ghost use Rattle.std.specs.Prelude.{◌≡◌, ◌∷◌, ◌++◌, IfOk, OnOk};
ghost use Rattle.std.specs.Fmt.{signed_decimal};
ghost use Rattle.druc_run.specs.Report.{rect_text, breach_text, report as report_of};

use druc_rules::Breach;
use std::alloc::{AllocError, Global};
use sym_geom::Rect;
use tool_drive::push_number;
use vlsi_base::FileBytes;

/// A coordinate behind a blank.
fn edge(alloc: Global, out: &mut FileBytes, n: &i64) -> Result<(), AllocError>
    ensures { OnOk result (out.new ≡ out.old ++ (32 ∷ signed_decimal n.now)) }
{
    let text = n.to_string(alloc)?;
    out.append(b" ")?;
    out.append(text.as_bytes())
}

/// The edges of a rectangle, each behind a blank.
fn rectangle(alloc: Global, out: &mut FileBytes, rect: &Rect) -> Result<(), AllocError>
    ensures { OnOk result (out.new ≡ out.old ++ rect_text rect.now) }
{
    edge(alloc, out, &rect.x1)?;
    edge(alloc, out, &rect.y1)?;
    edge(alloc, out, &rect.x2)?;
    edge(alloc, out, &rect.y2)
}

/// The line of a breach.
fn line(alloc: Global, out: &mut FileBytes, breach: &Breach) -> Result<(), AllocError>
    ensures { OnOk result (out.new ≡ out.old ++ breach_text breach.now) }
{
    match breach {
        Breach::Width { metal, rect } => {
            out.append(b"width ")?;
            push_number(alloc, out, u64::from(*metal))?;
            rectangle(alloc, out, rect)?;
        }
        Breach::Gap { metal, a, b } => {
            out.append(b"gap ")?;
            push_number(alloc, out, u64::from(*metal))?;
            rectangle(alloc, out, a)?;
            rectangle(alloc, out, b)?;
        }
    }
    out.append(b"\n")
}

/// A line for each breach, and how many there are, without the end of that line.
pub(crate) fn report(alloc: Global, breaches: &[Breach]) -> Result<FileBytes, AllocError>
    ensures { IfOk result (λ text. text ≡ report_of breaches.now) }
{
    let mut text = FileBytes::new(Vec::new(alloc));
    for breach in breaches {
        line(alloc, &mut text, breach)?;
    }
    text.append(b"breaches ")?;
    push_number(alloc, &mut text, breaches.len() as u64)?;
    Ok(text)
}
