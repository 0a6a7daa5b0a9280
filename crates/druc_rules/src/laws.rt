// Laws: what is true of lists of breaches. They cost nothing when they are called.
ghost use Rattle.druc_rules.specs.Breaches.{StandardIsMeant};

/// By the standard rules the list of breaches is that of the rules of symbolic layouts.
pub fn standard_rules_law()
    ensures { StandardIsMeant }
{}
