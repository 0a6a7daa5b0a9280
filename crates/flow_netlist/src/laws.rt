// What a netlist for a machine, with buffers and drives, is like. A law costs nothing when it is called.
ghost use Rattle.flow_netlist.specs.Laws.{DrivenIsGood, DrivenIsDrawable};

use boog_run::netlist_law;
use cell_lib::library_law;
use loon_drive::driven_law;
use loon_fanout::limited_law;
use net_tight::tightness_is_kept;
use vbe_writable::{catal_is_named, names_are_short};

/// A netlist for a machine, with buffers and drives, stands in order, is lean and driven, is tight where it has no buffer, and can be
/// drawn where the machine can be declared.
pub fn driven_netlist_law()
    ensures good { DrivenIsGood }
    ensures drawable { DrivenIsDrawable }
{
    driven_law();
    limited_law();
    tightness_is_kept();
    library_law();
    netlist_law();
    catal_is_named();
    names_are_short();
}
