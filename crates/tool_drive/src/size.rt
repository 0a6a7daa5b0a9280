// The limit of a machine's size.
ghost use Rattle.std.specs.Prelude.{◌≡◌, ◌<◌, ◌≤◌, OnOk, IfErr};
ghost use Rattle.machine_core.specs.Size.{machine_size as size_of};
ghost use Rattle.tool_drive.specs.Size.{size_limit};

use crate::Status;
use machine_core::{Machine, machine_size};
use vlsi_base::{Limit, LimitKind};

/// The most that a source may weigh: the size of its machine.
pub const MOST_SIZE: u64 = 16_384;

/// Whether the machine weighs at most `MOST_SIZE`, or the status that tells that it doesn't. Takes no memory.
pub fn check_size(machine: &Machine) -> Result<(), Status>
    ensures small { OnOk result (size_of machine.now ≤ MOST_SIZE) }
    ensures large { IfErr result (λ s. (MOST_SIZE < size_of machine.now) × (s ≡ size_limit machine.now)) }
{
    let size = machine_size(machine);
    if size > MOST_SIZE {
        return Err(Status::Limit(Limit {
            which: LimitKind::Size,
            reached: size,
        }));
    }
    Ok(())
}
