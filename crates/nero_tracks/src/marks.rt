// Numbers that are marked.
ghost use Rattle.std.specs.Prelude.{[], IfOk};
ghost use Rattle.nero_tracks.specs.Tracks.{AreMarks};

use std::alloc::{AllocError, Global};

/// So many marks, none of which is set.
pub(crate) fn no_marks(alloc: Global, count: usize) -> Result<Vec<bool>, AllocError>
    ensures { IfOk result (λ v. AreMarks [] count v.items) }
{
    let mut marks = Vec::new(alloc);
    for _ in 0..count {
        marks.push(false)?;
    }
    Ok(marks)
}
