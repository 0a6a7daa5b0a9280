// Defined bits as nodes that read each other.
ghost use Rattle.std.specs.Prelude.{◌≡◌, ◌<◌, ◌≤◌, ◌^◌, map, length, IfOk};
ghost use Rattle.std.specs.List.{All};
ghost use Rattle.bool_expr.specs.Expression.{IsOver};
ghost use Rattle.bool_expr.specs.View.{view};
ghost use Rattle.machine_core.specs.Order.{AllDifferent};
ghost use Rattle.vlsi_model.specs.Nodes.{HasNodes, IsOrderOfBits, nodes_read};

use bit_order::{Order, order};
use bool_expr::{Expr, support};
use source_bits::DrivenBit;
use std::alloc::{AllocError, Global};

/// The place of each defined bit among them, by its number; the number of all of them for other bits.
fn nodes(alloc: Global, total: u32, driven: &[DrivenBit]) -> Result<Vec<u32>, AllocError>
    requires inside { All (λ d. d.bit < total) driven.now }
    requires different { AllDifferent (map (λ d. d.bit) driven.now) }
    requires few { length driven.now < 2 ^ 32 }
    ensures { IfOk result (λ nodes. HasNodes (map (λ d. d.bit) driven.now) nodes.items total) }
{
    let mut nodes = vec![in alloc; driven.len() as u32; total as usize]?;
    for k in 0..driven.len() {
        nodes[driven[k].bit as usize] = k as u32;
    }
    Ok(nodes)
}

/// The nodes that an expression reads, where `nodes` has that of each variable.
fn read_nodes(alloc: Global, e: &Expr, nodes: &[u32], count: u32) -> Result<Vec<u32>, AllocError>
    requires { IsOver (view e.now) (length nodes.now) }
    ensures { IfOk result (λ read. read.items ≡ nodes_read count nodes.now (view e.now)) }
{
    let vars = support(alloc, e)?;
    let mut read = Vec::new(alloc);
    for k in vars.as_slice() {
        let node = nodes[*k as usize];
        if node < count {
            read.push(node)?;
        }
    }
    Ok(read)
}

fn all_read_nodes(
    alloc: Global,
    driven: &[DrivenBit],
    nodes: &[u32],
) -> Result<Vec<Vec<u32>>, AllocError>
    requires over { All (λ d. IsOver (view d.expr) (length nodes.now)) driven.now }
    requires few { length driven.now < 2 ^ 32 }
    ensures { IfOk result (λ all. map (λ read. read.items) all.items ≡ map (λ d. nodes_read (length driven.now) nodes.now (view d.expr)) driven.now) }
{
    let count = driven.len() as u32;
    let mut all = Vec::new(alloc);
    for d in driven {
        all.push(read_nodes(alloc, &d.expr, nodes, count)?)?;
    }
    Ok(all)
}

/// An order of the defined bits in which each stands behind those that it reads, or a ring of them.
pub fn node_order(alloc: Global, total: u32, driven: &[DrivenBit]) -> Result<Order, AllocError>
    requires inside { All (λ d. d.bit < total) driven.now }
    requires different { AllDifferent (map (λ d. d.bit) driven.now) }
    requires few { length driven.now < 2 ^ 32 }
    requires over { All (λ d. IsOver (view d.expr) total) driven.now }
    ensures { IfOk result (λ o. IsOrderOfBits (map (λ d. d.bit) driven.now) (map (λ d. view d.expr) driven.now) total o) }
{
    let nodes = nodes(alloc, total, driven)?;
    let reads = all_read_nodes(alloc, driven, &nodes)?;
    let made = order(alloc, &reads)?;
    Ok(made)
}
