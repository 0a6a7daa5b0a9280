// The texts that standard input holds.
ghost use Rattle.std.specs.Prelude.{◌<◌, length, IfSome};

use vlsi_base::read_u64;

// Where the first LF stands.
fn first_line_end(bytes: &[u8]) -> Option<usize>
    ensures { IfSome result (λ at. at < length bytes.now) }
{
    bytes.iter().position(|c| *c == b'\n')
}

/// The next text and what stands behind it: the number of its bytes, LF, the bytes. None where no such text is left.
pub fn next(bytes: &[u8]) -> Option<(&[u8], &[u8])> {
    let end = first_line_end(bytes)?;
    let count = read_u64(&bytes[..end])?;
    let rest = &bytes[end + 1..];
    if count > rest.len() as u64 {
        return None;
    }
    let count = count as usize;
    Some((&rest[..count], &rest[count..]))
}
