//! How many ports, pins and instances a structural text has room for.
//!
//! What is known of a netlist that is read stands in `specs/Room.antt`.
#![tactic(auto)]

ghost use Rattle.vst_room.specs.Room.{HasFewInstances, HasFewPins, HasFewPorts};

/// A netlist that is read has fewer than 2^27 instances, each of which takes three tokens at least; and where it meets what the stages
/// ask, it has few ports, and fewer than 2^27 ports and pins if no pin of an instance is a bit of a vector: then each pin is mapped by
/// itself, by three tokens at least. A text is at most 2^28 bytes long.
pub fn texts_have_room()
    ensures instances { HasFewInstances }
    ensures ports { HasFewPorts }
    ensures pins { HasFewPins }
{}
