// What is known of every circuit.
ghost use Rattle.gen_circuit.specs.Laws.{CircuitsAreChecked, CircuitsAreSmall};
ghost use Rattle.gen_circuit.specs.Written.{CircuitsCanBeWritten, CircuitsAreReadAgain};

use vbe_laws::each_text_has_an_answer;

/// Every circuit is a checked machine. It costs nothing when it is called.
pub fn circuits_are_checked()
    ensures { CircuitsAreChecked }
{}

/// Every circuit has nine port bits and few names, and its size is at most 16,028. It costs nothing when it is called.
pub fn circuits_are_small()
    ensures { CircuitsAreSmall }
{}

/// A text can declare the names of every circuit, and is within the limits of texts. It costs nothing when it is called.
pub fn circuits_can_be_written()
    ensures { CircuitsCanBeWritten }
{}

/// The text of a circuit is a text of exactly this circuit, and each machine of that text does the same and is small enough for each
/// tool; and it is refused only where memory has run out. It costs nothing when it is called.
pub fn circuits_are_read_again()
    ensures { CircuitsAreReadAgain }
{
    each_text_has_an_answer();
}
