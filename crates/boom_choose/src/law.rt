// What is true of the machine that is chosen.
ghost use Rattle.boom_choose.specs.Choice.{ChosenStandsBetween};

/// What is chosen stands among what is left free, so each run of it is one that is left free. Erased at run time.
pub fn chosen_stands_between()
    ensures { ChosenStandsBetween }
{}
