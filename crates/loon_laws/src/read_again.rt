// What a netlist with buffers and other drives is for the stages behind, and what is read of its text. A law costs nothing when it is
// called.
ghost use Rattle.loon_laws.specs.Meets.{DrivenMeetsCondition, MadeMeetsCondition};
ghost use Rattle.loon_laws.specs.Again.{ReadMeetsCondition, MadeIsReadAgain, LoonIsReadAgain};

use cell_lib::library_law;
use loon_drive::{driven_law, exchanged_law};
use loon_fanout::{passes_law, remains_law};
use loon_run::loon_law;
use vst_laws::{read_again, written_is_read_again};

/// Where a netlist of usable cells meets what the stages ask, it still does with buffers and other drives, and so does what `loon`
/// makes of it: it fits the table of pins and has no fault, its supply pins are tied, and no two of its ports have one class.
pub fn meets_law()
    ensures driven { DrivenMeetsCondition }
    ensures made { MadeMeetsCondition }
{
    passes_law();
    remains_law();
    exchanged_law();
    driven_law();
}

/// A netlist that is read meets what the stages ask. What `loon` makes of it, where names, numbers, bits, bytes and pins are within
/// the limits of texts, is read again from NAME.vst as it is, with the models that its instances have, and is refused only where
/// memory has run out.
pub fn read_again_law()
    ensures read { ReadMeetsCondition }
    ensures made { MadeIsReadAgain }
    ensures loon { LoonIsReadAgain }
{
    meets_law();
    passes_law();
    remains_law();
    exchanged_law();
    driven_law();
    library_law();
    loon_law();
    written_is_read_again();
    read_again();
}
