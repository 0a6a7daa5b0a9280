// A state machine with codes of its states, and its machine.
ghost use Rattle.std.specs.Prelude.{◌≡◌, ◌+◌, ◌-◌, ◌<◌, ◌^◌, IfOk, length};
ghost use Rattle.fsm_machine.specs.Codes.{AreCodes};
ghost use Rattle.machine_core.specs.Checked.{IsChecked};
ghost use Rattle.syf_encode.specs.Codes.{codes_by};
ghost use Rattle.syf_machine.specs.Named.{HasFewSignals, IsMachineOf};
ghost use Rattle.syf_machine.specs.Meaning.{DoesAs};
ghost use Rattle.syf_run.specs.Syf.{style_of};

use fsm_code::Codes;
use fsm_core::StateMachine;
use machine_core::Machine;
use std::alloc::{AllocError, Global};
use syf_encode::{Style, encode};
use syf_machine::machine_of;
use tool_words::Encoding;

/// Codes of the states of a state machine, and its machine.
#[derive(Drop)]
pub struct Encoded {
    pub codes: Codes,
    pub machine: Machine,
}

/// How states get their codes, by what a command asks.
pub fn style_of(encoding: Encoding, seed: u32) -> Style
    ensures { result ≡ style_of encoding seed }
{
    match encoding {
        Encoding::OneHot => Style::OneHot,
        Encoding::Random => Style::Random(u64::from(seed)),
        Encoding::Adjacent => Style::Adjacent,
    }
}

/// The codes of a state machine's states by the style, and its machine.
pub fn encoded_machine(
    alloc: Global,
    states: &StateMachine,
    style: Style,
) -> Result<Encoded, AllocError>
    requires few { HasFewSignals states.now (codes_by style states.now) }
    ensures codes { IfOk result (λ e. e.codes ≡ codes_by style states.now) }
    ensures different { IfOk result (λ e. AreCodes (length states.now.states) e.codes) }
    ensures made { IfOk result (λ e. IsMachineOf states.now e.codes e.machine) }
    ensures does { IfOk result (λ e. DoesAs states.now e.codes e.machine) }
    ensures checked { IfOk result (λ e. IsChecked e.machine) }
    ensures few { IfOk result (λ e. length e.machine.vars + length e.machine.ports < 2 ^ 32 - 2 ^ 16) }
{
    let codes = encode(alloc, states, style)?;
    let machine = machine_of(alloc, states, &codes)?;
    // A machine is checked.
    let _ = machine.name();
    Ok(Encoded { codes, machine })
}
