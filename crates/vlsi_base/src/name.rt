// Names of signals, perhaps with a bit, their order, and what is named by them.
ghost use Rattle.std.specs.Prelude.{◌≡◌, ◌++◌, IfOk, OnOk, IsTrue, ◌↔◌};
ghost use Rattle.vlsi_base.specs.Name.{name_cmp, bit_text, name_text, is_supply};

use crate::{Listed, Text, push_u64};
use std::alloc::{AllocError, Global};
use std::cmp::Ordering;

/// A signal's name: an identifier, and the number of a bit where it is one bit of a vector.
#[derive(Debug, Drop)]
pub struct Name {
    pub text: Text,
    pub bit: Option<u32>,
}

impl Name {
    /// A name without a bit. Takes no memory.
    pub fn scalar(text: Text) -> Self
        ensures { result ≡ record { text = text; bit = None } }
    {
        Name { text, bit: None }
    }

    /// An equal name, on this allocator. Takes memory for its bytes.
    pub fn copy(&self, alloc: Global) -> Result<Self, AllocError>
        ensures { IfOk result (λ made. made ≡ self.now) }
    {
        Ok(Name {
            text: self.text.copy(alloc)?,
            bit: self.bit,
        })
    }

    /// Whether the two are one name, with the same bit or both without one.
    pub fn is_same(&self, other: &Name) -> bool
        ensures { IsTrue result ↔ (self.now ≡ other.now) }
    {
        self.text.is_same(&other.text) && self.bit == other.bit
    }

    /// The order of names: by their bytes, then a name without a bit before bits in rising order.
    pub fn compare(&self, other: &Name) -> Ordering
        ensures { result ≡ name_cmp self.now other.now }
    {
        self.text
            .compare(&other.text)
            .then(self.bit.cmp(&other.bit))
    }

    /// The name as it is printed, a bit in parentheses behind it. Takes memory for the text.
    pub fn to_text(&self, alloc: Global) -> Result<Text, AllocError>
        ensures { IfOk result (λ made. made ≡ name_text self.now) }
    {
        let mut text = self.text.copy(alloc)?;
        push_bit(alloc, &mut text, self.bit)?;
        Ok(text)
    }
}

/// Puts a bit in parentheses behind a text; nothing where there is none.
fn push_bit(alloc: Global, text: &mut Text, bit: Option<u32>) -> Result<(), AllocError>
    ensures { OnOk result (text.new ≡ text.old ++ bit_text bit) }
{
    let Some(k) = bit else {
        return Ok(());
    };
    text.append(b"(")?;
    push_u64(alloc, text, u64::from(k))?;
    text.append(b")")
}

/// Whether a name is that of one of the two supplies, vdd and vss.
pub fn is_supply(text: &[u8]) -> bool
    ensures { result ≡ is_supply text.now }
{
    text == b"vdd".as_slice() || text == b"vss".as_slice()
}

/// Names in their order.
pub type Names = Listed<Name>;

/// The direction of a port, seen from outside of its entity.
#[derive(Clone, Copy, Debug, PartialEq, Eq)]
pub enum Dir {
    In,
    Out,
}

/// One bit of an entity's ports.
#[derive(Drop)]
pub struct Port {
    pub name: Name,
    pub dir: Dir,
}

/// Port bits in their order.
pub type Ports = Listed<Port>;

/// A place where a net ends: a port of the netlist, which has no instance, or a pin of an instance.
#[derive(Debug, Drop)]
pub struct Terminal {
    pub instance: Option<Text>,
    pub pin: Name,
}
