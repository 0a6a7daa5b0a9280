// What a netlist with buffers and other drives has of the one that it was made of. A law costs nothing when it is called.
ghost use Rattle.loon_drive.specs.Laws.{CellsStay, RightStays, FanoutStays};
ghost use Rattle.loon_drive.specs.Laws.{DrivenIsGrown, DrivenIsChosen, BuffersHaveFewPins, DrivenJoinsNothing, DrivenHasFewInputs, DrivenNeedsItsBuffers};

/// What a netlist of a library's cells is, it still is once cells are exchanged for drives of them.
pub fn exchanged_law()
    ensures cells { CellsStay }
    ensures right { RightStays }
    ensures fanout { FanoutStays }
{
    net_theory::exchanged_law();
}

/// A netlist with buffers and other drives has the instances of the given one, each with a drive of its cell, and buffers behind them;
/// with these taken out it joins nothing that was apart; where the given one is right for a machine, few input pins read a class; and it
/// has no buffer at all where it would do without them.
pub fn driven_law()
    ensures grown { DrivenIsGrown }
    ensures chosen { DrivenIsChosen }
    ensures pins { BuffersHaveFewPins }
    ensures joins_nothing { DrivenJoinsNothing }
    ensures inputs { DrivenHasFewInputs }
    ensures needed { DrivenNeedsItsBuffers }
{
    loon_fanout::limited_law();
    loon_fanout::few_inputs_law();
    loon_fanout::needed_law();
    loon_fanout::joins_nothing_law();
}
