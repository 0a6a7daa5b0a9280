// The codes of a state machine's states.
ghost use Rattle.std.specs.Prelude.{◌≡◌, ◌==◌, ◌≤◌, length, map, IfOk};
ghost use Rattle.fsm_machine.specs.Codes.{AreCodes};
ghost use Rattle.fsm_machine.specs.Encoding.{one_hot, bits_of, width_of, numbered};
ghost use Rattle.fsm_machine.specs.MachineOf.{up};
ghost use Rattle.fsm_core.specs.Checked.{most_states};
ghost use Rattle.syf_encode.specs.Codes.{codes_by};

use crate::adjacent::adjacent_numbers;
use crate::random::random_numbers;
use crate::style::Style;
use bool_expr::Bits;
use fsm_code::Codes;
use fsm_core::StateMachine;
use fsm_machine::encodings_are_codes;
use std::alloc::{AllocError, Global};

// The least width that has room for so many codes.
pub(crate) fn width_of(count: usize) -> u32
    requires { count ≤ most_states }
    ensures value { result ≡ width_of count }
    ensures few { result ≤ 8 }
{
    let mut width = 0;
    while count > 1 << width {
        width += 1;
    }
    width
}

// So many bits of which one alone is 1.
fn one_bit(alloc: Global, count: usize, place: usize) -> Result<Bits, AllocError>
    ensures { IfOk result (λ bits. bits ≡ map (λ k. k == place) (up 0 count)) }
{
    let mut bits = Vec::with_capacity(alloc, count)?;
    for k in 0..count {
        bits.push(k == place)?;
    }
    Ok(Bits::new(bits))
}

// One bit for each state: state k has bit k alone.
fn one_hot(alloc: Global, count: usize) -> Result<Codes, AllocError>
    requires { count ≤ most_states }
    ensures { IfOk result (λ codes. codes ≡ one_hot count) }
{
    let mut codes = Vec::with_capacity(alloc, count)?;
    for state in 0..count {
        codes.push(one_bit(alloc, count, state)?)?;
    }
    Ok(Codes::new(true, count as u32, codes))
}

// The lowest bits of a number, bit 0 first.
fn bits_of(alloc: Global, width: u32, number: u32) -> Result<Bits, AllocError>
    ensures { IfOk result (λ bits. bits ≡ bits_of width number) }
{
    let mut bits = Vec::new(alloc);
    let mut rest = number;
    let mut left = width;
    while left > 0 {
        bits.push(rest % 2 == 1)?;
        rest /= 2;
        left -= 1;
    }
    Ok(Bits::new(bits))
}

// The codes that are these numbers in bits, as few as so many states want.
fn numbered(alloc: Global, numbers: &[u32]) -> Result<Codes, AllocError>
    requires { length numbers.now ≤ most_states }
    ensures { IfOk result (λ codes. codes ≡ numbered (length numbers.now) numbers.now) }
{
    let width = width_of(numbers.len());
    let mut codes = Vec::with_capacity(alloc, numbers.len())?;
    for number in numbers {
        codes.push(bits_of(alloc, width, *number)?)?;
    }
    Ok(Codes::new(false, width, codes))
}

/// The codes of the states, by the style: different ones of one width, one for each state. One-hot codes have as many bits as there
/// are states, the others as few as so many numbers want, none for one state. Takes memory for the codes, and for `Adjacent` for the
/// pairs of states of which one leads to the other.
///
/// `Random` shuffles the numbers from the last place i down to 1: it exchanges places i and `word mod (i + 1)`, each time with the next
/// word of the generator. `Adjacent` begins with the numbers in order. Its cost is the sum of the numbers of bits in which the codes
/// of two states differ, over all ordered pairs of states of which the first leads to the second; it makes the first exchange of two
/// states that lowers the cost, in the order (0, 1), (0, 2), and so on, and begins again, until there is none.
pub fn encode(alloc: Global, machine: &StateMachine, style: Style) -> Result<Codes, AllocError>
    ensures codes { IfOk result (λ codes. codes ≡ codes_by style machine.now) }
    ensures different { IfOk result (λ codes. AreCodes (length machine.now.states) codes) }
{
    encodings_are_codes();
    let count = machine.states().as_slice().len();
    match style {
        Style::OneHot => one_hot(alloc, count),
        Style::Random(seed) => numbered(alloc, &random_numbers(alloc, count, seed)?),
        Style::Adjacent => numbered(alloc, &adjacent_numbers(alloc, count, machine.body())?),
    }
}
