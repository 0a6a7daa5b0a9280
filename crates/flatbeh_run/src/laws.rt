// Laws: what follows of a machine that is written. They cost nothing when they are called.
ghost use Rattle.flatbeh_run.specs.Laws.{FlatteningIsRead, NetlistHasFewBits, NetlistHasWords};

use cell_lib::library_law;
use vbe_laws::read_again;
use vbe_writable::in_order_can_be_written;
use vst_laws::netlist_words_law;
use vst_room::texts_have_room;

/// A netlist that is read has the words that a data-flow text of it needs.
pub fn netlist_has_words()
    ensures { NetlistHasWords }
{
    in_order_can_be_written();
    netlist_words_law();
}

/// The machine of a netlist that is read, of gates and plain flip-flops, has few bits.
pub fn netlist_has_few_bits()
    ensures { NetlistHasFewBits }
{
    library_law();
    texts_have_room();
}

/// What `flatbeh` writes, where it is within the limits of data-flow texts, is read again as a machine that does the same as the
/// netlist's, with the same registers, and is refused only where memory has run out.
pub fn flatbeh_law()
    ensures { FlatteningIsRead }
{
    read_again();
}
