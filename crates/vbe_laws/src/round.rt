// What is written of a machine is read again.
ghost use Rattle.vbe_laws.specs.Again.{ReadAgain};

/// What the text of a machine is read as has the same name, ports, clock and registers, and does the same: from the same contents and
/// under the same inputs it settles with the same outputs and the same next contents. And where the text is within the limits of
/// texts it is refused only where memory has run out.
pub fn read_again()
    ensures { ReadAgain }
{}
