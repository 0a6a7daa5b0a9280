// Classes of terminals, from the pairs that are joined.
ghost use Rattle.std.specs.Prelude.{◌≡◌, ◌<◌, ◌↔◌, ◌^◌, ℕ, length, IfOk};
ghost use Rattle.sym_groups.specs.Ties.{Alone, Tied};
ghost use Rattle.net_core.specs.Joins.{AreWithin, Joined, LabelsJoined, NumbersLabels};

use std::alloc::{AllocError, Global};
use std::collections::BTreeMap;
use sym_groups::Groups;

fn join_all(groups: &mut Groups, joins: &[(u32, u32)])
    requires within { AreWithin (length groups.old) joins.now }
    requires alone { Alone groups.old }
    ensures many { length groups.new ≡ length groups.old }
    ensures joined { (i j : ℕ) → Tied groups.new i j ↔ Joined joins.now i j }
{
    for (a, b) in joins {
        groups.join(*a, *b);
    }
}

/// A label for each number below a count: two have the same exactly where the pairs join them. Takes memory for them.
pub fn labels(alloc: Global, count: u32, joins: &[(u32, u32)]) -> Result<Vec<u32>, AllocError>
    requires { AreWithin count joins.now }
    ensures each { IfOk result (λ v. length v.items ≡ count) }
    ensures joined { IfOk result (λ v. LabelsJoined joins.now v.items) }
{
    let mut groups = Groups::new(alloc, count)?;
    join_all(&mut groups, joins);
    groups.labels(alloc)
}

/// Numbers for labels, from 0 on in the order in which they are met, and how many there are. Takes memory for them.
pub fn numbers(alloc: Global, labels: &[u32]) -> Result<(Vec<u32>, u32), AllocError>
    requires { length labels.now < 2 ^ 32 }
    ensures { IfOk result (λ made. NumbersLabels labels.now made.0.items made.1) }
{
    let mut met: BTreeMap<u32, u32> = BTreeMap::new(alloc);
    let mut classes = Vec::with_capacity(alloc, labels.len())?;
    let mut count = 0;
    for label in labels {
        match met.get(label) {
            Some(class) => classes.push(*class)?,
            None => {
                met.insert(*label, count)?;
                classes.push(count)?;
                count += 1;
            }
        }
    }
    Ok((classes, count))
}
