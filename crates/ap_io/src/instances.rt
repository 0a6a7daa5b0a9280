// The names of instances.
ghost use Rattle.std.specs.Prelude.{◌≡◌, ◌||◌, OnOk, IfOk, not, bytes_eq, ℕ, List, false};
ghost use Rattle.ap_io.specs.Instances.{is_known};

use std::alloc::{AllocError, Global};
use std::collections::BTreeSet;

/// The names that instances have so far.
#[derive(Drop)]
pub struct InstanceNames {
    names: BTreeSet<Vec<u8>>,
}

impl InstanceNames {
    /// None so far. Takes no memory.
    pub fn new(alloc: Global) -> Self
        ensures { (name : List ℕ) → is_known name result ≡ false }
    {
        InstanceNames {
            names: BTreeSet::new(alloc),
        }
    }

    /// Whether an instance has a name. Takes no memory.
    pub fn has(&self, name: &[u8]) -> bool
        ensures { result ≡ is_known name.now self.now }
    {
        self.names.contains(name)
    }

    /// Puts a name in. Takes memory for its bytes.
    pub fn put(&mut self, alloc: Global, name: &[u8]) -> Result<(), AllocError>
        ensures { OnOk result ((other : List ℕ) → is_known other self.new ≡ bytes_eq other name.now || is_known other self.old) }
    {
        let key = name.to_vec(alloc)?;
        let _ = self.names.insert(key)?;
        Ok(())
    }
}
