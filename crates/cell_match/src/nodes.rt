// The nodes that two gates read.
ghost use Rattle.std.specs.Prelude.{◌≡◌, ◌≢◌, ◌⊎◌, ◌↔◌, ◌<◌, ◌≤◌, ◌+◌, ℕ, List, map, length, IfSome, IfNone};
ghost use Rattle.cell_match.specs.Places.{times, place, place_but, AreRead};

use arrayvec::ArrayVec;

/// The first place of a node, or the list's length where it does not stand there.
pub fn place(nodes: &[u32], node: u32) -> usize
    ensures { result ≡ place node nodes.now }
{
    for (i, other) in nodes.iter().enumerate() {
        if *other == node {
            return i;
        }
    }
    nodes.len()
}

/// The place of each leaf among the nodes, with the length of `nodes` for a leaf that is none of them.
pub fn places(nodes: &[u32], leaves: &[u32]) -> ArrayVec<u8, 6>
    requires few { length leaves.now ≤ 6 }
    requires few_nodes { length nodes.now ≤ 6 }
    ensures { result.items ≡ map (λ x. place x nodes.now) leaves.now }
{
    let mut places = ArrayVec::new();
    for leaf in leaves {
        places.push(place(nodes, *leaf) as u8);
    }
    places
}

/// The place of each leaf among the nodes, with 0 for node `a`.
pub(crate) fn places_but(nodes: &[u32], leaves: &[u32], a: u32) -> ArrayVec<u8, 6>
    requires few { length leaves.now ≤ 6 }
    requires few_nodes { length nodes.now ≤ 6 }
    ensures { result.items ≡ map (place_but a nodes.now) leaves.now }
{
    let mut places = ArrayVec::new();
    for leaf in leaves {
        places.push(if *leaf == a {
            0
        } else {
            place(nodes, *leaf) as u8
        });
    }
    places
}

fn copied(nodes: &[u32]) -> ArrayVec<u32, 6>
    requires { length nodes.now ≤ 6 }
    ensures { result.items ≡ nodes.now }
{
    let mut copy = ArrayVec::new();
    for node in nodes {
        copy.push(*node);
    }
    copy
}

/// The different nodes of the two lists but `a`; None where there are more than 6.
pub(crate) fn read(first: &[u32], second: &[u32], a: u32) -> Option<ArrayVec<u32, 6>>
    requires few { length first.now ≤ 6 }
    requires once { (x : ℕ) → times x first.now ≤ 1 }
    requires other { times a first.now ≡ 0 }
    ensures some { IfSome result (λ nodes. AreRead first.now second.now a nodes.items) }
    ensures none { IfNone result ((nodes : List ℕ) → AreRead first.now second.now a nodes → 6 < length nodes) }
{
    let mut nodes = copied(first);
    for leaf in second {
        let node = *leaf;
        if node != a && place(nodes.as_slice(), node) == nodes.len() {
            if nodes.is_full() {
                return None;
            }
            nodes.push(node);
        }
    }
    Some(nodes)
}
