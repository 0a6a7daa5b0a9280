// The words and the files decide the status. Laws cost nothing when they are called.
ghost use Rattle.tool_laws.specs.OneStatus.{SyfHasOneStatus, FmiHasOneStatus, BoomHasOneStatus, BoogHasOneStatus, AreaHasOneStatus};
ghost use Rattle.tool_laws.specs.OneStatus.{DrucHasOneStatus, TablesAreOne, LvxHasOneStatus};

use flow_run::{libraries_are_same, library_is_never_refused, one_refusal};
use vbe_laws::machines_are_the_same;
use vbe_roots::roots_are_the_same;

/// Two runs of `syf` over the same files, in which no call failed, have one status, or one of them ran out of memory.
pub fn syf_has_one_status()
    ensures { SyfHasOneStatus }
{
    fsm_io::never_both();
    fsm_io::one_refusal();
}

/// Two runs of `fmi` over the same files, in which no call failed, have one status, or one of them ran out of memory.
pub fn fmi_has_one_status()
    ensures { FmiHasOneStatus }
{
    fsm_io::one_fsm();
    fsm_io::never_both();
    fsm_io::one_refusal();
}

/// Two runs of `boom` over the same files, in which no call failed, have one status, or one of them ran out of memory, or both name a
/// ring of the source.
pub fn boom_has_one_status()
    ensures { BoomHasOneStatus }
{
    vbe_io::never_both();
    vbe_io::one_refusal();
    machines_are_the_same();
    roots_are_the_same();
}

/// Two runs of `boog` over the same files, in which no call failed, have one status, or one of them ran out of memory, or both name a
/// ring of the source.
pub fn boog_has_one_status()
    ensures { BoogHasOneStatus }
{
    vbe_io::never_both();
    vbe_io::one_refusal();
    machines_are_the_same();
    library_is_never_refused();
    one_refusal();
    libraries_are_same();
}

/// Two runs of `area` over the same files, in which no call failed, have one status, or one of them ran out of memory, or both name a
/// ring of the source.
pub fn area_has_one_status()
    ensures { AreaHasOneStatus }
{
    vbe_io::never_both();
    vbe_io::one_refusal();
    machines_are_the_same();
    library_is_never_refused();
    one_refusal();
    libraries_are_same();
}

/// Two runs of `druc` over the same files, in which no call failed, have one status, with the same breaches, or one of them ran out of
/// memory.
pub fn druc_has_one_status()
    ensures { DrucHasOneStatus }
{
    library_is_never_refused();
    one_refusal();
    libraries_are_same();
}

/// Two libraries of the same files have one table of pins.
pub fn tables_are_one()
    ensures { TablesAreOne }
{
    vbe_io::cell_is_machine();
    machines_are_the_same();
    libraries_are_same();
}

/// Two runs of `lvx` over the same files, in which no call failed, have one status, with the same name, or one of them ran out of memory,
/// or both name a ring of one of the netlists.
pub fn lvx_has_one_status()
    ensures { LvxHasOneStatus }
{
    library_is_never_refused();
    one_refusal();
    tables_are_one();
    vst_io::one_netlist();
    vst_io::never_both();
    vst_io::one_refusal();
}
