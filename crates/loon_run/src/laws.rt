// Laws: what holds of what is read and written. They cost nothing when they are called.
ghost use Rattle.loon_run.specs.Laws.{NetlistIsDrivable, NetlistHasRoom, DrivenIsWritable};

use cell_lib::library_law;
use loon_fanout::limited_law;
use vbe_writable::catal_is_named;
use vst_laws::netlist_words_law;
use vst_room::texts_have_room;

/// A netlist that is read with the pins of a library's usable cells is of them, can get buffers and drives, and has room for all of them;
/// and what is made of it can be written.
pub fn loon_law()
    ensures drivable { NetlistIsDrivable }
    ensures room { NetlistHasRoom }
    ensures writable { DrivenIsWritable }
{
    library_law();
    limited_law();
    catal_is_named();
    netlist_words_law();
    texts_have_room();
}
