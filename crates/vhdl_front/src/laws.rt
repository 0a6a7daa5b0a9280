// What follows from the grammars.
ghost use Rattle.std.specs.Prelude.{ℕ};
ghost use Rattle.grammar_theory.specs.Unique.{OneAnswer};
ghost use Rattle.vhdl_front.specs.Entity.{declarations, entity};
ghost use Rattle.vhdl_front.specs.Expression.{expression};

/// Whatever tokens are left, and however many parentheses may still be open, exactly one answer is right: what is read
/// has one value and one end, what is refused has one place and one reason, and nothing is both or neither.
pub fn one_answer()
    ensures expression { (room : ℕ) → OneAnswer (expression room) }
    ensures entity { (room : ℕ) → OneAnswer (entity room) }
    ensures declarations { (room : ℕ) → OneAnswer (declarations room) }
{}
