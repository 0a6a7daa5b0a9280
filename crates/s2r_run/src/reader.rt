// The reader of tables.
ghost use Rattle.std.specs.Prelude.{◌≡◌, ◌+◌, ◌<◌, ◌^◌, IfErr, IfOk, IfSome, IsNone, length};
ghost use Rattle.s2r_cif.specs.Real.{IsRealTable};
ghost use Rattle.s2r_run.specs.TableText.{IsGrowLine, IsNoGrow, IsNoScale, IsScaleLine, IsTableRefusal, IsTableText, fault_on};

use real_table::{field, field_count, number_in};
use s2r_cif::{MOST_GROW, MOST_SCALE, RealTable};
use std::alloc::Global;
use vlsi_base::{FaultKind, InputFault, Lines, Names, ReadError};

/// The number of the line `scale K`.
fn read_scale(line: &[u8]) -> Option<u32>
    ensures some { IfSome result (λ scale. IsScaleLine line.now scale) }
    ensures none { IsNone result → IsNoScale line.now }
{
    if field_count(line) != 2 {
        return None;
    }
    if field(line, 0) != b"scale".as_slice() {
        return None;
    }
    number_in(1, MOST_SCALE, field(line, 1))
}

/// The numbers of the line `grow D1 D2 D3 D4 D5 D6`.
fn read_grow(line: &[u8]) -> Option<[u32; 6]>
    ensures some { IfSome result (λ grow. IsGrowLine line.now grow) }
    ensures none { IsNone result → IsNoGrow line.now }
{
    if field_count(line) != 7 {
        return None;
    }
    if field(line, 0) != b"grow".as_slice() {
        return None;
    }
    let mut grow = [0; 6];
    for place in 0..6 {
        let Some(number) = number_in(0, MOST_GROW, field(line, place + 1)) else {
            return None;
        };
        grow[place] = number;
    }
    Some(grow)
}

fn fault(alloc: Global, line: u32, kind: FaultKind) -> ReadError
    ensures { result ≡ fault_on line kind }
{
    ReadError::Input(InputFault {
        line,
        kind,
        names: Names::new(Vec::new(alloc)),
    })
}

/// Reads a table: the line `scale K`, K from 1 to 1,000, and then the line `grow D1 D2 D3 D4 D5 D6`, each number from 0 to 1,000,000.
/// Numbers are 1 to 20 decimal digits; one blank stands before each. The first other line is a bad line; where a line is missing, there
/// is no end on the last one. Takes no memory.
pub fn read_table(alloc: Global, bytes: &[u8]) -> Result<RealTable, ReadError>
    ensures read { IfOk result (λ t. IsTableText bytes.now t) }
    ensures bounds { IfOk result (λ t. IsRealTable t) }
    ensures refused { IfErr result (λ e. IsTableRefusal bytes.now e) }
{
    let mut lines = Lines::new(bytes);
    let Some(first) = lines.next_line() else {
        return Err(fault(alloc, 1, FaultKind::NoEnd));
    };
    let Some(scale) = read_scale(first) else {
        return Err(fault(alloc, 1, FaultKind::BadLine));
    };
    let Some(second) = lines.next_line() else {
        return Err(fault(alloc, 1, FaultKind::NoEnd));
    };
    let Some(grow) = read_grow(second) else {
        return Err(fault(alloc, 2, FaultKind::BadLine));
    };
    if let Some(_third) = lines.next_line() {
        return Err(fault(alloc, 3, FaultKind::BadLine));
    }
    Ok(RealTable { scale, grow })
}
