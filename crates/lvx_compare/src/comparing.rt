// What a comparison of two netlists comes to.
ghost use Rattle.std.specs.Prelude.{◌≡◌, ◌↔◌, IfOk};
ghost use Rattle.vlsi_base.specs.declared.name.Name.{Name as NameParts};
ghost use Rattle.lvx_compare.specs.Compared.{AreSame, IsDifference};
ghost use Rattle.lvx_compare.specs.Stages.{lesser};

use crate::faults::{odd_instance, odd_port};
use crate::images::kept_classes;
use net_core::Netlist;
use std::alloc::{AllocError, Global};
use vlsi_base::Name;

/// Whether two netlists are the same by name.
#[derive(Drop)]
pub enum Verdict {
    Same,
    /// The least name that differs, of a port, or of an instance where all ports are the same.
    Different(Name),
}

/// The lesser of two names, or the one that is there.
fn lesser(a: Option<Name>, b: Option<Name>) -> Option<Name>
    ensures { result ≡ lesser a b }
{
    match (a, b) {
        (Some(a), Some(b)) => {
            if b.compare(&a).is_lt() {
                Some(b)
            } else {
                Some(a)
            }
        }
        (Some(a), None) => Some(a),
        (None, b) => b,
    }
}

/// Compares two netlists by the names of their ports, instances and pins. They are the same where their ports have the same names,
/// their instances the same names and models, and the same terminals are in one class; directions of ports, the order of instances
/// and the numbers of classes aren't compared. Else it tells the least name, ports before instances, of a port or instance
/// that one netlist lacks, whose model differs, or one of whose terminals is missing or has a class with other members in the
/// other netlist.
///
/// Takes memory for each terminal and for the names of instances, and time for each terminal with the logarithm of the number of
/// instances. Only want of memory is an error.
pub fn compare(alloc: Global, a: &Netlist, b: &Netlist) -> Result<Verdict, AllocError>
    ensures same { IfOk result (λ v. (v ≡ Verdict.Same) ↔ AreSame a.now b.now) }
    ensures different { IfOk result (λ v. (name : NameParts) → (v ≡ Verdict.Different name) ↔ IsDifference a.now b.now name) }
{
    let (kept_a, kept_b) = kept_classes(alloc, a, b)?;
    let port_a = odd_port(alloc, a, &kept_a)?;
    let port_b = odd_port(alloc, b, &kept_b)?;
    if let Some(name) = lesser(port_a, port_b) {
        return Ok(Verdict::Different(name));
    }
    let instance_a = odd_instance(alloc, a, &kept_a, b)?;
    let instance_b = odd_instance(alloc, b, &kept_b, a)?;
    match lesser(instance_a, instance_b) {
        Some(name) => Ok(Verdict::Different(name)),
        None => Ok(Verdict::Same),
    }
}
