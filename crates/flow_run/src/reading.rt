// What is true of what is read.
ghost use Rattle.flow_run.specs.Laws.{WhatIsReadIsNeverRefused};

use crate::{covered_lacks_nothing, libraries_are_same, library_is_never_refused};
use syf_run::encoded_law;
use vbe_laws::machines_are_the_same;
use vbe_roots::roots_are_the_same;

/// Where the source is a machine that isn't too large, the files are a library that covers it, and no diagram is over the budget, none
/// of the causes of a refusal holds of them. It costs nothing when it is called.
pub fn reading_law()
    ensures { WhatIsReadIsNeverRefused }
{
    catal::never_both();
    vbe_io::never_both();
    fsm_io::never_both();
    machines_are_the_same();
    roots_are_the_same();
    encoded_law();
    library_is_never_refused();
    libraries_are_same();
    covered_lacks_nothing();
}
