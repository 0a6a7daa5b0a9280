// Copies of what patterns keep.
ghost use Rattle.std.specs.Prelude.{◌≡◌, ◌++◌, ◌∷◌, [], IfOk, take};

use pat_meaning::{Column, Columns};
use std::alloc::{AllocError, Global};
use vlsi_base::Text;

/// An equal label, on this allocator.
pub(crate) fn copy_label(alloc: Global, label: &Option<Text>) -> Result<Option<Text>, AllocError>
    ensures { IfOk result (λ made. made ≡ label.now) }
{
    match label {
        Some(text) => Ok(Some(text.copy(alloc)?)),
        None => Ok(None),
    }
}

fn copy_column(alloc: Global, column: &Column) -> Result<Column, AllocError>
    ensures { IfOk result (λ made. made ≡ column.now) }
{
    Ok(Column {
        name: column.name.copy(alloc)?,
        dir: column.dir,
        range: column.range,
        format: column.format,
    })
}

/// Equal columns, on this allocator.
pub(crate) fn copy_columns(alloc: Global, columns: &[Column]) -> Result<Columns, AllocError>
    ensures { IfOk result (λ made. made ≡ columns.now) }
{
    let mut made = Vec::new(alloc);
    for column in columns {
        made.push(copy_column(alloc, column)?)?;
    }
    Ok(Columns::new(made))
}
