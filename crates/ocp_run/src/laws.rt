// Laws: what holds of what is read and written. They cost nothing when they are called.
ghost use Rattle.ocp_run.specs.Laws.{SourceCanBePlaced, SourceIsNamed, PlacedTextIsLines};

use ap_io::lines_are_read_again;
use cell_lib::library_law;
use route_draw::placed_drawing_can_be_written;
use vbe_writable::catal_is_named;
use vst_laws::netlist_words_law;

/// A netlist that is read with the pins of a library's usable cells, and that has the ports of the supplies, can be placed and drawn, and
/// its names can be written.
pub fn source_law()
    ensures placed { SourceCanBePlaced }
    ensures named { SourceIsNamed }
{
    library_law();
    catal_is_named();
    netlist_words_law();
}

/// The text of a placement is lines of the format, where names can be written and are short, and there are no more instances, pins and
/// ports than a source within the limits gives.
pub fn placed_text_law()
    ensures { PlacedTextIsLines }
{
    placed_drawing_can_be_written();
    lines_are_read_again();
}
