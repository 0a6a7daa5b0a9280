// How many bits the machine of a netlist is made of.
ghost use Rattle.std.specs.Prelude.{◌≡◌, ◌-◌, ◌^◌, min};
ghost use Rattle.net_machine.specs.Bits.{bits_of};
ghost use Rattle.net_machine.specs.Gathered.{AreKnown, ForKnown};

use crate::known::Known;
use net_core::Netlist;

/// How many bits the machine of a netlist is made of, or the greatest number of 64 bits where that is less. Takes no memory, and time
/// for each instance.
pub fn count_bits(netlist: &Netlist, known: &[Known]) -> u64
    requires { AreKnown netlist.now known.now }
    ensures { ForKnown netlist.now known.now (λ l. result ≡ min (bits_of netlist.now l) (2 ^ 64 - 1)) }
{
    let mut count = u64::from(netlist.count()) + netlist.ports().len() as u64;
    for node in netlist.nodes() {
        let body = &known[node.model].body;
        count = count.saturating_add((body.loads.len() + body.inner.len()) as u64);
    }
    count
}
