// That each source, and each text, has an answer.
ghost use Rattle.vbe_laws.specs.EachText.{EachCell, EachDesign, EachText};

/// A source that passes its checks is a machine, and each other source has a refusal.
pub fn each_design_has_an_answer()
    ensures { EachDesign }
{}

/// Whatever the bytes are, they are a machine or have a refusal.
pub fn each_text_has_an_answer()
    ensures { EachText }
{}

/// Whatever the bytes are, they are the text of a cell or have a refusal as one.
pub fn each_cell_has_an_answer()
    ensures { EachCell }
{}
