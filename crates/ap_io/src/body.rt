// The items so far.
ghost use Rattle.std.specs.Prelude.{◌≡◌, ◌&&◌, [], IfOk, OnOk, ℕ, List, false};
ghost use Rattle.ap_io.specs.Instances.{is_known};
ghost use Rattle.ap_io.specs.Taking.{HasOneMore, HasName, Takes};
ghost use Rattle.ap_io.specs.LineFaults.{fault_by, letter_of, has_letter, name_on, item_fault};

use crate::instances::InstanceNames;
use crate::lines::{is_instance_line, is_taken, item, item_fault, name_on};
use crate::names::is_blank_line;
use crate::{LineFault, Scale};
use std::alloc::{AllocError, Global};
use sym_geom::Items;

/// The items so far, and the names of the instances among them.
#[derive(Drop)]
pub struct Body {
    pub items: Items,
    pub names: InstanceNames,
}

impl Body {
    /// None so far. Takes no memory.
    pub fn new(alloc: Global) -> Self
        ensures items { result.items ≡ [] }
        ensures names { (name : List ℕ) → is_known name result.names ≡ false }
    {
        Body {
            items: Items::new(Vec::new(alloc)),
            names: InstanceNames::new(alloc),
        }
    }

    /// Puts in the name of the instance of a line, if it is an I line.
    fn put_name(&mut self, alloc: Global, line: &[u8]) -> Result<(), AllocError>
        ensures items { self.new.items ≡ self.old.items }
        ensures names { OnOk result (HasName line.now self.old self.new) }
    {
        if !is_instance_line(line) {
            return Ok(());
        }
        let name = name_on(alloc, line)?;
        self.names.put(alloc, name.as_bytes())
    }

    /// Puts in a line that isn't blank and has no fault.
    fn put(&mut self, alloc: Global, scale: Scale, line: &[u8]) -> Result<(), AllocError>
        requires { fault_by (letter_of line.now) scale false line.now ≡ None }
        ensures item { OnOk result (HasOneMore scale line.now self.old.items self.new.items) }
        ensures names { OnOk result (HasName line.now self.old self.new) }
    {
        self.put_name(alloc, line)?;
        let item = item(alloc, scale, line)?;
        self.items.push(item)
    }

    /// Takes the next line, or says what is wrong with it. Takes memory for its item and for the name of an instance.
    pub fn take(
        &mut self,
        alloc: Global,
        scale: Scale,
        line: &[u8],
    ) -> Result<Option<LineFault>, AllocError>
        ensures fault { IfOk result (λ fault. fault ≡ item_fault scale (has_letter 73 line.now && is_known (name_on line.now) self.old.names) line.now) }
        ensures taken { IfOk result (λ fault. fault ≡ None → Takes scale line.now self.old self.new) }
    {
        if is_blank_line(line) {
            return Ok(None);
        }
        let taken = is_taken(alloc, &self.names, line)?;
        if let Some(fault) = item_fault(scale, taken, line) {
            return Ok(Some(fault));
        }
        self.put(alloc, scale, line)?;
        Ok(None)
    }

    /// The items. Takes no memory.
    pub fn into_items(self) -> Items
        ensures { result ≡ self.items }
    {
        let Body { items, names: _ } = self;
        items
    }
}
