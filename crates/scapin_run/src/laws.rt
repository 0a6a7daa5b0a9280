// A law: what holds of what is read and written. It costs nothing when it is called.
ghost use Rattle.scapin_run.specs.Laws.{NetlistHasRoom, ScannedIsWritable};

use cell_lib::library_law;
use vbe_writable::{catal_is_named, in_order_can_be_written, pins_are_named};
use vst_laws::netlist_words_law;
use vst_room::texts_have_room;

/// A netlist that is read with the pins of a library's usable cells has room for a scan path, and what is made of it can be written.
pub fn scapin_law()
    ensures room { NetlistHasRoom }
    ensures writable { ScannedIsWritable }
{
    library_law();
    catal_is_named();
    pins_are_named();
    in_order_can_be_written();
    netlist_words_law();
    texts_have_room();
}
