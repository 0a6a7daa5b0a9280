// What follows of states that become one.
ghost use Rattle.fsm_merge.specs.Fewest.{NoneHasFewer, MergedIsChecked};

/// Where states become one exactly if they do the same, no machine that does the same as the old one from some state for each of its
/// states has fewer.
pub fn none_has_fewer()
    ensures { NoneHasFewer }
{}

/// The machine that is left of a checked one passes the checks of state machines.
pub fn merged_is_checked()
    ensures { MergedIsChecked }
{}
