// What is true of machines that are alike.
ghost use Rattle.machine_core.specs.Alike.{AlikeRun, AlikeBothWays, AlikeItself};

/// Machines that are alike have the same runs. Erased at run time.
pub fn alike_law()
    ensures runs { AlikeRun }
    ensures both_ways { AlikeBothWays }
    ensures itself { AlikeItself }
{}
