// What is written of a netlist says what it is.
ghost use Rattle.vst_print.specs.Says.{WrittenIsASentence, WrittenSaysTheNetlist};

/// The text of a netlist is cut into tokens without a refusal, and these are a sentence of the grammar of structural texts, whose
/// value is the stated one. Its names can be written, those of its models' pins too; names have at most 64 bytes, numbers 32 bits,
/// and the bits that are declared are within the limit.
pub fn written_is_a_sentence()
    ensures { WrittenIsASentence }
{}

/// Where moreover no two ports have one class, that value has the netlist's name and ports, a component for each model that an
/// instance has, with its pins, and the instances with their models, of which each pin is joined once: two pins to one net exactly
/// where they have one class, and a pin to a port exactly where the port is in its class.
pub fn written_says_the_netlist()
    ensures { WrittenSaysTheNetlist }
{}
