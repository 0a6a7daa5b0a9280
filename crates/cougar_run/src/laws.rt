// Laws: what follows of a netlist that is written. They cost nothing when they are called.
ghost use Rattle.cougar_run.specs.Laws.{ExtractionIsGiven, ExtractionIsSaid};

use cell_lib::library_law;
use cougar_extract::{extracted_fits, extracted_is_given};
use vbe_writable::cell_can_be_written;
use vst_print::{written_is_a_sentence, written_says_the_netlist};

/// The netlist that `cougar` writes is the one that the layout gives. And its file, where names, numbers and bits are within the
/// limits of structural texts, is a sentence of their grammar which says the netlist.
pub fn cougar_law()
    ensures given { ExtractionIsGiven }
    ensures said { ExtractionIsSaid }
{
    library_law();
    extracted_is_given();
    extracted_fits();
    cell_can_be_written();
    written_is_a_sentence();
    written_says_the_netlist();
}
