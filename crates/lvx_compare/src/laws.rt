// Laws: what follows of netlists that are the same. They cost nothing when they are called.
ghost use Rattle.lvx_compare.specs.Laws.{SameIsEquivalence, SameByNameIsSame, OneLayoutIsSame};

/// To be the same is an equivalence, so a netlist compared with itself is the same. Netlists that are the same by name, directions
/// of ports included, are the same; so are two netlists that one layout gives.
pub fn same_law()
    ensures equivalence { SameIsEquivalence }
    ensures named { SameByNameIsSame }
    ensures drawn { OneLayoutIsSame }
{}
