// Whether the names of a netlist can be written.
ghost use Rattle.std.specs.Prelude.{◌≡◌, ◌↔◌, ◌<◌, IsTrue, map, length};
ghost use Rattle.std.specs.List.{All, list_all};
ghost use Rattle.spell_theory.specs.Words.{is_in_small_word};
ghost use Rattle.net_core.specs.Frame.{instance_of};
ghost use Rattle.net_right.specs.Writable.{is_word, is_next_bit, IsIdentifier, GoesOn, CanBePorts, CanBeAnInstance, CanBeNamed};

use net_core::{Netlist, Node};
use vhdl_token::Keyword;
use vlsi_base::{Port, Text};

fn is_in_word(byte: u8) -> bool
    ensures { result ≡ is_in_small_word byte }
{
    byte.is_ascii_lowercase() || byte.is_ascii_digit() || byte == b'_'
}

fn all_in_word(bytes: &[u8]) -> bool
    ensures { result ≡ list_all is_in_small_word bytes.now }
{
    bytes.iter().all(|byte| is_in_word(*byte))
}

/// Whether the bytes are a letter in lower case, and behind it letters in lower case, digits and underscores.
fn is_word(bytes: &[u8]) -> bool
    ensures { result ≡ is_word bytes.now }
{
    if bytes.is_empty() || !bytes[0].is_ascii_lowercase() {
        return false;
    }
    all_in_word(bytes)
}

fn is_identifier(text: &Text) -> bool
    ensures { IsTrue result ↔ IsIdentifier text.now }
{
    let bytes = text.as_bytes();
    is_word(bytes) && Keyword::from_word(bytes).is_none()
}

/// Whether both are bits, and the second has the next number.
fn is_next_bit(before: Option<u32>, bit: Option<u32>) -> bool
    ensures { result ≡ is_next_bit before bit }
{
    match (before, bit) {
        (Some(before), Some(bit)) => u64::from(bit) == u64::from(before) + 1,
        _ => false,
    }
}

/// Whether a port is the next bit of the vector that another is a bit of, and has its direction.
fn goes_on(before: &Port, port: &Port) -> bool
    ensures { IsTrue result ↔ GoesOn before.now port.now }
{
    is_next_bit(before.name.bit, port.name.bit) && port.dir == before.dir
}

/// Whether a port, in the order of names, can be declared behind another.
fn can_follow(before: &Port, port: &Port) -> bool
    ensures { IsTrue result ↔ (before.now.name.text ≡ port.now.name.text → GoesOn before.now port.now) }
{
    !before.name.text.is_same(&port.name.text) || goes_on(before, port)
}

/// Whether a text can declare these ports, which stand in the order of names.
fn can_be_ports(ports: &[Port]) -> bool
    ensures { IsTrue result ↔ CanBePorts ports.now }
{
    if ports.is_empty() {
        return false;
    }
    for k in 0..ports.len() {
        if !is_identifier(&ports[k].name.text) {
            return false;
        }
        if k > 0 && !can_follow(&ports[k - 1], &ports[k]) {
            return false;
        }
    }
    true
}

/// Whether the names of instances and of their models are identifiers.
fn can_be_instances(models: &[Text], nodes: &[Node]) -> bool
    requires { All (λ i. i.model < length models.now) nodes.now }
    ensures { IsTrue result ↔ All CanBeAnInstance (map (instance_of models.now) nodes.now) }
{
    for node in nodes {
        if !is_identifier(&node.name) || !is_identifier(&models[node.model]) {
            return false;
        }
    }
    true
}

/// Whether the names of a netlist can be written: it has a port; the bits of a port have no hole and one direction, and no text is
/// both a scalar and a vector; and the names of the netlist, of its ports, of its instances and of their models are identifiers in
/// lower case, and none of them is reserved. Takes no memory, and time for the bytes of the names.
pub fn can_be_named(netlist: &Netlist) -> bool
    ensures { IsTrue result ↔ CanBeNamed netlist.now }
{
    if !is_identifier(netlist.name()) {
        return false;
    }
    if !can_be_ports(netlist.ports()) {
        return false;
    }
    can_be_instances(netlist.models(), netlist.nodes())
}
