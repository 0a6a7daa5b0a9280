// What is written is read again.
ghost use Rattle.vhdl_print.specs.EntityAgain.{EntityIsReadAgain};
ghost use Rattle.vhdl_print.specs.Formula.{FormulaIsReadAgain};
ghost use Rattle.vhdl_print.specs.InFront.{EntityIsReadInFront};

/// The text that is laid out of an entity is cut into tokens without a refusal, and of these tokens one answer is right,
/// with nothing left: this entity, with each line on which it stands. Names are words in lower case and not reserved, no two
/// ports have one name, bounds have 32 bits, all bits together are within the limit, and two parentheses may be open.
pub fn entity_is_read_again()
    ensures { EntityIsReadAgain }
{}

/// The text that is laid out of an expression is cut into tokens without a refusal, and of these tokens one answer is right,
/// with nothing left: this expression. Names are words in lower case and not reserved, and its parentheses and operators are
/// within the limits.
pub fn formula_is_read_again()
    ensures { FormulaIsReadAgain }
{}

/// Whatever tokens stand behind an entity that is laid out, one answer is right: this entity, and those tokens are left.
pub fn entity_is_read_in_front()
    ensures { EntityIsReadInFront }
{}
