// The words and the files decide the status.
ghost use Rattle.flow_run.specs.OneStatus.{FilesHaveOneRefusal, OneStatus};

use crate::one_library::one_refusal;
use crate::reading::reading_law;
use crate::{covered_lacks_nothing, libraries_are_same, library_is_never_refused};
use syf_run::encoded_law;
use vbe_laws::machines_are_the_same;
use vbe_roots::roots_are_the_same;

/// What stands in the files is refused with one status; only of several rings of a source in data flow any may be named. It costs
/// nothing when it is called.
pub fn files_have_one_refusal()
    ensures { FilesHaveOneRefusal }
{
    catal::never_both();
    vbe_io::never_both();
    fsm_io::never_both();
    catal::one_refusal();
    vbe_io::one_refusal();
    fsm_io::one_refusal();
    machines_are_the_same();
    roots_are_the_same();
    encoded_law();
    one_refusal();
    library_is_never_refused();
    libraries_are_same();
    covered_lacks_nothing();
}

/// Two runs of one command over the same files, in which no call failed, have one status. Otherwise one of them ran out of memory; or
/// each names a ring of a source in data flow; or, where no tracks are asked for, each draws a layout or tells of a net that gets stuck.
/// It costs nothing when it is called.
pub fn one_status()
    ensures { OneStatus }
{
    reading_law();
    files_have_one_refusal();
}
