// Laws: what is true of netlists of layouts. They cost nothing when they are called.
ghost use Rattle.cougar_extract.specs.Laws.{ExtractedIsGiven, ExtractedHasPins, ExtractedFits};

/// As every netlist that it can be seen as, the netlist of a layout is the one that the layout gives.
pub fn extracted_is_given()
    ensures { ExtractedIsGiven }
{}

/// The instances of the netlist of a layout have the pins of their cells, and it fits the table of all cells.
pub fn extracted_fits()
    ensures pins { ExtractedHasPins }
    ensures fits { ExtractedFits }
{}
