// A machine that is read has few names.
ghost use Rattle.vbe_laws.specs.FewNames.{SourceHasFewNames};

/// The names and ports of a machine that is read have numbers of 22 bits, since a text declares at most 1,048,576 bits.
pub fn source_has_few_names()
    ensures { SourceHasFewNames }
{}
