// What equal machines are.
ghost use Rattle.proof_cmp.specs.Verdict.{EqualAreAlike};

/// Machines whose verdict is `Equal` can't be told apart from outside as they are compared, but for their entities' names. It costs
/// nothing when it is called.
pub fn equal_law()
    ensures { EqualAreAlike }
{}
