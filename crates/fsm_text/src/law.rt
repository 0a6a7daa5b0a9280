// What follows from the grammar.
ghost use Rattle.fsm_text.specs.Laws.{EachMachine, NeverBothMachine, OneMachine, OneRefusedMachine};

/// A text is at most one state machine.
pub fn reads_once()
    ensures { OneMachine }
{}

/// A text that is a state machine has no refusal.
pub fn never_both()
    ensures { NeverBothMachine }
{}

/// A text has at most one refusal.
pub fn one_refusal()
    ensures { OneRefusedMachine }
{}

/// Each text is a state machine or has a refusal.
pub fn each_text()
    ensures { EachMachine }
{}
