// Laws: what is written. They cost nothing when they are called.
ghost use Rattle.nero_run.specs.Laws.{RoutedTextIsLines, StuckTextIsLines};

use ap_io::lines_are_read_again;
use route_draw::{grid_drawing_can_be_written, marked_drawing_can_be_written};

/// The text of a layout in rows is lines of the format, and so is the one that shows where a net got stuck: where names can be written and
/// are short, and there are no more instances, pins and ports than a source within the limits gives.
pub fn row_text_law()
    ensures routed { RoutedTextIsLines }
    ensures stuck { StuckTextIsLines }
{
    grid_drawing_can_be_written();
    marked_drawing_can_be_written();
    lines_are_read_again();
}
