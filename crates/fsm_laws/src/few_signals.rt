// A state machine that is read has few signals.
ghost use Rattle.fsm_laws.specs.FewSignals.{StatementsAreFew, CodesAreFew, StylesAreFew};

use fsm_machine::encodings_are_codes;

/// The statements of a state machine that is read have at most two signals for each byte that a text may have. So numbers of 32 bits
/// count what its machine has inside, by codes of each style and by any others that have no more bits than there are states. It costs
/// nothing when it is called.
pub fn machine_has_few_signals()
    ensures signals { StatementsAreFew }
    ensures codes { CodesAreFew }
    ensures styles { StylesAreFew }
{
    encodings_are_codes();
}
