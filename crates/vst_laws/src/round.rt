// What is written of a netlist is read again.
ghost use Rattle.vst_laws.specs.Again.{ReadAgain, WrittenIsReadAgain};

/// Where a netlist meets what the stages ask, can be written, has names, numbers and declared bits within the limits of texts, and
/// its text is short enough, with few enough ports and terminals, this text has no fault, and is the netlist, with the models that
/// its instances have. Where the netlist lists no others it is the netlist itself.
pub fn written_is_read_again()
    ensures { WrittenIsReadAgain }
{}

/// A netlist that can be written, within these limits, no two of whose ports have one class: what its text is read as is this
/// netlist, but maybe for the models that instances can be given. And such a text as above is refused only where memory has run
/// out.
pub fn read_again()
    ensures { ReadAgain }
{}
