// What a netlist with buffers and other drives does. A law costs nothing when it is called.
ghost use Rattle.loon_laws.specs.MeaningLaws.{DrivenBehavesAsBefore, DrivenRunsAsBefore, BufferedBehavesAsBefore, AlikeRunAlike};

/// Netlists that behave alike run alike.
pub fn alike_law()
    ensures { AlikeRunAlike }
{}

/// Whatever the netlist of usable cells is, with buffers and other drives it behaves and runs as before.
pub fn driven_behaves_law()
    ensures behaves { DrivenBehavesAsBefore }
    ensures runs { DrivenRunsAsBefore }
{
    loon_drive::exchanged_law();
    loon_fanout::remains_law();
}

/// Whatever the netlist of usable cells is, with buffers alone, as `limit_fanout` puts them in, it behaves as before.
pub fn buffered_behaves_law()
    ensures { BufferedBehavesAsBefore }
{
    loon_drive::exchanged_law();
    loon_fanout::remains_law();
}
