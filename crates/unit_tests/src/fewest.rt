// The new states of old ones, and the tests of pairs of new states: the tool `fmi` shows neither.
use bool_expr::Bits;
use fmi_min::{Minimal, TestRow, minimise};
use fsm_io::read_fsm;
use fsm_print::fsm_can_be_written;
use std::alloc::{AllocError, Global};
use std::test::Fail;

/// A lock that opens at the keys 1, 0, 1, 1. State `s5` does what `s3` does, and `s2` goes to it.
static LOCK: &[u8] = b"entity lock is port (ck, reset, k : in bit; door : out bit); end lock;
architecture fsm of lock is
type states is (s0, s1, s2, s3, s4, s5);
signal cs, ns : states;
-- pragma CURRENT_STATE cs
-- pragma NEXT_STATE ns
-- pragma CLOCK ck
begin
step : process (cs, reset, k) begin
door <= '0';
if reset = '1' then
ns <= s0;
else
case cs is
when s0 => if k = '1' then ns <= s1; else ns <= s0; end if;
when s1 => if k = '1' then ns <= s1; else ns <= s2; end if;
when s2 => if k = '1' then ns <= s5; else ns <= s0; end if;
when s3 => if k = '1' then ns <= s4; else ns <= s2; end if;
when s4 => door <= '1'; ns <= s4;
when s5 => if k = '1' then ns <= s4; else ns <= s2; end if;
end case;
end if;
end process step;
load : process (ck) begin
if ck = '1' and not ck'stable then
cs <= ns;
end if;
end process load;
end fsm;
";

/// The next state of the lock without `s5`, by its five states.
fn next(state: usize, k: bool, reset: bool) -> usize {
    match (reset, state, k) {
        (true, _, _) => 0,
        (false, 0, false) => 0,
        (false, 0, true) => 1,
        (false, 1, false) => 2,
        (false, 1, true) => 1,
        (false, 2, false) => 0,
        (false, 2, true) => 3,
        (false, 3, false) => 2,
        (false, 3, true) => 4,
        (false, _, _) => 4,
    }
}

/// Whether the door opens: only in state 4, and under no reset.
fn door(state: usize, reset: bool) -> bool {
    state == 4 && !reset
}

/// Whether some of the vectors of these numbers, each of which has `k` and then `reset`, leads the two states to different outputs.
fn tell(first: usize, second: usize, vectors: &[Bits], test: &[u32]) -> bool {
    let mut p = first;
    let mut q = second;
    for number in test {
        let Some(vector) = vectors.get(*number as usize) else {
            return false;
        };
        let [k, reset] = vector.as_slice() else {
            return false;
        };
        if door(p, *reset) != door(q, *reset) {
            return true;
        }
        p = next(p, *k, *reset);
        q = next(q, *k, *reset);
    }
    false
}

/// The two states of each pair, and `+` where its test tells them and has no more vectors than there are states.
fn told(alloc: Global, vectors: &[Bits], tests: &[TestRow]) -> Result<Vec<u8>, AllocError> {
    let mut text = Vec::new(alloc);
    for (q, row) in tests.iter().enumerate() {
        for (p, test) in row.as_slice().iter().enumerate() {
            text.push(b'0' + (p % 10) as u8)?;
            text.push(b'0' + (q % 10) as u8)?;
            if tell(p, q, vectors, test.as_slice()) && test.as_slice().len() <= tests.len() {
                text.push(b'+')?;
            }
            text.push(b' ')?;
        }
    }
    Ok(text)
}

fn fewest(alloc: Global) -> Option<Minimal> {
    fsm_can_be_written();
    let machine = read_fsm(alloc, LOCK).ok()?;
    minimise(alloc, &machine).ok()
}

#[test]
fn a_state_that_does_the_same_becomes_the_first(rt: HostRuntime) -> Result<(), Fail> {
    match fewest(rt.alloc()) {
        Some(made) => {
            assert_eq!(rt; made.fsm.states().as_slice().len(), 5);
            assert_eq!(rt; made.state_of.as_slice(), &[0, 1, 2, 3, 4, 3][..]);
        }
        None => assert!(rt; false, "the text is refused"),
    }
    Ok(())
}

#[test]
fn a_test_tells_each_pair(rt: HostRuntime) -> Result<(), Fail> {
    match fewest(rt.alloc()) {
        Some(made) => {
            let told = told(rt.alloc(), made.vectors.as_slice(), made.tests.as_slice())?;
            assert_eq!(rt; &told[..], &b"01+ 02+ 12+ 03+ 13+ 23+ 04+ 14+ 24+ 34+ "[..]);
        }
        None => assert!(rt; false, "the text is refused"),
    }
    Ok(())
}
