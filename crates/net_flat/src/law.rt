// What follows for a netlist whose names can be written.
ghost use Rattle.net_flat.specs.Flat.{NamedHasWords};

/// A netlist whose names a structural text can have has the words that a data-flow text of it needs.
pub fn named_has_words()
    ensures { NamedHasWords }
{}
