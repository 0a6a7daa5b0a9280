// The set of the cells that are used so far.
ghost use Rattle.std.specs.Prelude.{◌≡◌, ℕ, [], List, IfOk};
ghost use Rattle.catal.specs.Used.{Holds, Adds};

use std::alloc::{AllocError, Global};
use std::collections::BTreeSet;

/// Names of cells, found by name.
pub type Used = BTreeSet<Vec<u8>>;

/// No names.
pub fn none(alloc: Global) -> Used
    ensures { Holds result [] }
{
    BTreeSet::new(alloc)
}

/// Puts a name in, unless it is there: then the answer is false.
pub fn add(alloc: Global, used: &mut Used, name: &[u8]) -> Result<bool, AllocError>
    ensures { IfOk result (λ added. (names : List (List ℕ)) → Holds used.old names → Adds added names name.now used.new) }
{
    let key = Vec::from_slice(alloc, name)?;
    let added = used.insert(key)?;
    Ok(added)
}
