// What follows from the definitions of a text and of its refusals.
ghost use Rattle.fsm_io.specs.Laws.{OneFsm, NeverBoth, OneRefusal, FsmIsChecked};

/// A text is at most one state machine.
pub fn one_fsm()
    ensures { OneFsm }
{}

/// A text that is a state machine has no refusal.
pub fn never_both()
    ensures { NeverBoth }
{}

/// A text has at most one refusal.
pub fn one_refusal()
    ensures { OneRefusal }
{}

/// What passes the checks lists known states once, and every state assigns everything.
pub fn fsm_is_checked()
    ensures { FsmIsChecked }
{}
