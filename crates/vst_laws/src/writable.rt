// What is read can be written again. A law costs nothing when it is called.
ghost use Rattle.vst_laws.specs.Writable.{NetlistHasNames, NetlistCanBeNamed, TableCanBeWritten};

use vbe_writable::{cell_can_be_written, in_order_can_be_written};

/// The names of a netlist that is read are those of a text, and so are the pins of a library's cells.
pub fn netlist_words_law()
    ensures names { NetlistHasNames }
    ensures named { NetlistCanBeNamed }
    ensures table { TableCanBeWritten }
{
    cell_can_be_written();
    in_order_can_be_written();
}
