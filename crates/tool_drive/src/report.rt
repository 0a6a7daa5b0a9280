// What reports of tools are made of.
ghost use Rattle.std.specs.Prelude.{◌≡◌, ◌++◌, IfOk, OnOk};
ghost use Rattle.std.specs.Fmt.{decimal};
ghost use Rattle.tool_drive.specs.Lines.{count_line as count_line_of};

use std::alloc::{AllocError, Global};
use vlsi_base::{FileBytes, FileName};

/// Puts a number behind a text, in decimal digits. It takes memory for them.
pub fn push_number(alloc: Global, out: &mut FileBytes, n: u64) -> Result<(), AllocError>
    ensures { OnOk result (out.new ≡ out.old ++ decimal n) }
{
    let digits = n.to_string(alloc)?;
    out.append(digits.as_bytes())
}

/// Puts a line with a word and a number behind a text. It takes memory for the line.
pub fn count_line(
    alloc: Global,
    out: &mut FileBytes,
    word: &[u8],
    count: u128,
) -> Result<(), AllocError>
    ensures { OnOk result (out.new ≡ out.old ++ count_line_of word.now count) }
{
    let digits = count.to_string(alloc)?;
    out.append(word)?;
    out.append(b" ")?;
    out.append(digits.as_bytes())?;
    out.append(b"\n")?;
    Ok(())
}

/// A report of one line, with a word and a number. It takes memory for the line.
pub fn count_text(alloc: Global, word: &[u8], count: u128) -> Result<FileBytes, AllocError>
    ensures { IfOk result (λ text. text ≡ count_line_of word.now count) }
{
    let mut text = FileBytes::new(Vec::new(alloc));
    count_line(alloc, &mut text, word, count)?;
    Ok(text)
}

/// The name of a file that is written: the name that is given, and an ending. It takes memory for the name.
pub fn file_name(alloc: Global, out: &FileName, ending: &[u8]) -> Result<FileName, AllocError>
    ensures { IfOk result (λ name. name ≡ out.now ++ ending.now) }
{
    let mut name = out.copy(alloc)?;
    name.append(ending)?;
    Ok(name)
}
