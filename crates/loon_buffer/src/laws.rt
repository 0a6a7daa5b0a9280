// Which exchanges of cells can make the longest path shorter.
ghost use Rattle.loon_buffer.specs.Drives.{OthersDoNotHelp, TableIsEnough, StepsStay, PathsStay, NoExchangeYet, OneExchangeMore, ExchangesCanBeTimed};

/// An exchange of an instance's cell makes the longest path no shorter where the instance has no pin in a class to which a step of that
/// path leads.
pub fn others_law()
    ensures { OthersDoNotHelp }
{}

/// What exchanges one after the other come to, that the netlist can still be timed, and that the exchanges that a table lists are enough.
pub fn exchanges_law()
    ensures none { NoExchangeYet }
    ensures one_more { OneExchangeMore }
    ensures timed { ExchangesCanBeTimed }
    ensures table { TableIsEnough }
{}

/// What becomes of paths by an exchange: some step of the same kind leads between the same classes as each step before, and the longest
/// path takes at least as long as such steps in the place of a path's.
pub fn paths_law()
    ensures steps { StepsStay }
    ensures paths { PathsStay }
{}
