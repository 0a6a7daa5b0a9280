// A state machine that is written, in the layout of its text.
use fsm_io::read_fsm;
use fsm_print::{fsm_can_be_written, write_fsm};
use std::alloc::Global;
use std::test::Fail;
use vlsi_base::{FileBytes, ReadError};

/// A gate that opens at `k` and is shut by `reset`, in the writer's layout.
static GATE: &[u8] = b"-- pragma current_state current_state
-- pragma next_state next_state
-- pragma clock ck
entity gate is
port (
  ck : in bit;
  k : in bit;
  reset : in bit;
  seen : out bit_vector (1 downto 0));
end gate;

architecture fsm of gate is
type state is (shut, ajar, wide);
signal current_state, next_state : state;
begin
process begin
seen(0) <= '0';
seen(1) <= k and not reset;
if reset then
next_state <= shut;
else
case current_state is
when shut =>
if k then
next_state <= ajar;
elsif not (k xor reset) then
next_state <= wide;
else
next_state <= shut;
end if;
when ajar | wide =>
seen(0) <= '1';
next_state <= wide;
end case;
end if;
end process;
process begin
if ck = '1' and not ck'stable then
current_state <= next_state;
end if;
end process;
end fsm;
";

/// What is written of the state machine of a text.
fn written(alloc: Global, text: &[u8]) -> Result<FileBytes, ReadError> {
    fsm_can_be_written();
    let machine = read_fsm(alloc, text)?;
    Ok(write_fsm(alloc, &machine)?)
}

#[test]
fn a_state_machine_is_written_in_its_layout(rt: HostRuntime) -> Result<(), Fail> {
    match written(rt.alloc(), GATE) {
        Ok(bytes) => assert_eq!(rt; bytes.as_bytes(), GATE),
        Err(_) => assert!(rt; false, "the text is refused"),
    }
    Ok(())
}
