// What follows of texts that leave outputs free.
ghost use Rattle.vbe_free.specs.Laws.{FreeSourceHasFewNames, FreeSourceHasFewPorts, NeverBothFree};

/// The names and ports of a machine that is read have numbers of 22 bits, and its port bits are at most as many as a source may have.
/// Erased at run time.
pub fn free_source_has_few_names()
    ensures names { FreeSourceHasFewNames }
    ensures ports { FreeSourceHasFewPorts }
{}

/// A text that is such a machine has no refusal. Erased at run time.
pub fn never_both_free()
    ensures { NeverBothFree }
{}
