// That each text has an answer.
ghost use Rattle.fsm_laws.specs.EachText.{EachFsm};

/// Whatever the bytes are, they are a state machine or have a refusal.
pub fn each_text_has_an_answer()
    ensures { EachFsm }
{}
