// The reader.
ghost use Rattle.std.specs.Prelude.{◌≡◌, true, false, [], IfOk, IfErr, MatchOption};
ghost use Rattle.vlsi_base.specs.declared.fault.ReadError.TheVariants.{Memory};
ghost use Rattle.vhdl_lexer.specs.Listing.{tokens_in};
ghost use Rattle.vbe_free.specs.Text.{leaves_free, IsFreeVbe, IsFreeRefusal};
ghost use Rattle.vbe_free.specs.Either.{IsVbeSource, IsVbeSourceRefusal};

use crate::source::VbeSource;
use crate::tokens::leaves;
use crate::written::read_free;
use std::alloc::Global;
use vbe_io::read_vbe;
use vhdl_lexer::tokens;
use vhdl_token::Tokens;
use vlsi_base::{MOST_SOURCE_BYTES, ReadError};

/// The tokens of a text that leaves something free; none of another one, and of one that isn't cut into tokens.
fn free_tokens(alloc: Global, bytes: &[u8]) -> Result<Option<Tokens>, ReadError>
    ensures tokens { IfOk result (λ read. MatchOption read (leaves_free bytes.now ≡ false)
        (λ t. (leaves_free bytes.now ≡ true) × (t ≡ tokens_in bytes.now))) }
    ensures refused { IfErr result (λ e. e ≡ Memory) }
{
    if bytes.len() > MOST_SOURCE_BYTES {
        return Ok(None);
    }
    match tokens(alloc, bytes) {
        Ok(read) => {
            if leaves(read.items.as_slice()) {
                Ok(Some(read))
            } else {
                Ok(None)
            }
        }
        Err(ReadError::Memory) => Err(ReadError::Memory),
        Err(ReadError::Input(_)) => Ok(None),
        Err(ReadError::Limit(_)) => Ok(None),
    }
}

/// Reads a data-flow text that may leave outputs free, and makes the machine that it describes.
///
/// Where some `'d'` stands where an alternative begins, behind `<=`, `guarded` or `else`, the text is read with bits that are left free;
/// every other text is read by `read_vbe`, which refuses each `'d'`. One that leaves something free is refused, in this order: for the first
/// token that can't follow those before it, that declares a name twice, or that exceeds a limit; then by the checks of the text with each
/// free bit 0, where a free bit whose target is no single output bit, or whose output some expression reads, is `Unsupported` at its
/// line. Memory and time grow with the bytes and with the bits of what is written.
pub fn read_free_vbe(alloc: Global, bytes: &[u8]) -> Result<VbeSource, ReadError>
    ensures accepted { IfOk result (λ s. IsVbeSource bytes.now s) }
    ensures refused { IfErr result (λ e. IsVbeSourceRefusal bytes.now e) }
{
    let read = free_tokens(alloc, bytes)?;
    match read {
        Some(read) => match read_free(alloc, bytes, read) {
            Ok(machine) => Ok(VbeSource::Free(machine)),
            Err(e) => Err(e),
        },
        None => match read_vbe(alloc, bytes) {
            Ok(machine) => Ok(VbeSource::Fixed(machine)),
            Err(e) => Err(e),
        },
    }
}
