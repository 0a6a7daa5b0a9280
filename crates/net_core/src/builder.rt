// Netlists that are built part by part.
ghost use Rattle.std.specs.Prelude.{◌≡◌, ◌+◌, ◌<◌, ◌^◌, [], map, length, IfOk, OnOk, OnErr, IfErr};
ghost use Rattle.net_core.specs.Places.{IsThere};
ghost use Rattle.net_core.specs.Netlist.{AreInOrder, IsNetlist};
ghost use Rattle.net_core.specs.Frame.{IsNoPlaceFor};
ghost use Rattle.net_core.specs.Joins.{draft_terminals, with_instance, with_join, IsNoJoin, IsFinished};

use crate::error::BuildError;
use crate::frame::Frame;
use crate::netlist::Netlist;
use crate::turns::{labels, numbers};
use std::alloc::{AllocError, Global};
use std::marker::Model;
use vlsi_base::{Names, Ports, Terminal, Text};

/// A netlist that is being built: its ports and instances so far, and the pairs of terminals that were joined.
#[derive(Drop)]
pub struct Builder {
    name: Text,
    frame: Frame,
    joins: Vec<(u32, u32)>,
}

impl Model for Builder {
    ghost use Rattle.std.specs.Prelude.{length};
    ghost use Rattle.net_core.specs.Frame.{frame_terminals, IsUsed};
    ghost use Rattle.net_core.specs.Joins.{Draft, draft_of, AreWithin};

    ghost Value = { Draft };

    ghost view = { λ a. draft_of a.name a.frame a.joins.items };

    ghost invariant = { λ a. AreWithin (length (frame_terminals a.frame)) a.joins.items × IsUsed a.frame };
}

impl Builder {
    /// A netlist of these ports, which stand in the order of names, with no instances and no terminals joined.
    pub fn begin(alloc: Global, name: Text, ports: Ports) -> Result<Self, AllocError>
        requires few { length ports < 2 ^ 32 }
        requires order { AreInOrder (map (λ p. p.name) ports) }
        ensures { IfOk result (λ b. b ≡ record { name = name; ports = ports; instances = []; joins = [] }) }
    {
        Ok(Builder {
            name,
            frame: Frame::new(alloc, ports),
            joins: Vec::new(alloc),
        })
    }

    /// Puts an instance of a model with these pins, which stand in the order of names, behind the others, each pin joined to
    /// nothing; answers its number, from 0. It is refused by `Twice` exactly where an instance has the name. Takes memory for
    /// the instance and time for the logarithm of the number of instances; without memory all stays as it was.
    pub fn add(
        &mut self,
        alloc: Global,
        name: &Text,
        model: &Text,
        pins: &Names,
    ) -> Result<u32, BuildError>
        requires order { AreInOrder pins.now }
        requires few { length self.old.instances < 2 ^ 32 }
        requires room { length (draft_terminals self.old) + length pins.now < 2 ^ 32 }
        ensures number { IfOk result (λ k. k ≡ length self.old.instances) }
        ensures added { OnOk result (self.new ≡ with_instance self.old (record { name = name.now; model = model.now; pins = pins.now })) }
        ensures fresh { OnOk result (IsThere (map (λ i. i.name) self.old.instances) name.now → ⊥) }
        ensures refused { IfErr result (λ e. IsNoPlaceFor self.old.instances name.now e) }
        ensures kept { OnErr result (self.new ≡ self.old) }
    {
        self.frame.add(alloc, name, model, pins)
    }

    /// Joins two terminals. It is refused by `Unknown` exactly where one isn't there. Takes memory for the pair; without it all
    /// stays as it was.
    pub fn join(&mut self, a: &Terminal, b: &Terminal) -> Result<(), BuildError>
        ensures joined { OnOk result (self.new ≡ with_join self.old a.now b.now) }
        ensures first { OnOk result (IsThere (draft_terminals self.old) a.now) }
        ensures second { OnOk result (IsThere (draft_terminals self.old) b.now) }
        ensures refused { IfErr result (λ e. IsNoJoin self.old a.now b.now e) }
        ensures kept { OnErr result (self.new ≡ self.old) }
    {
        let Some(first) = self.frame.place(a) else {
            return Err(BuildError::Unknown);
        };
        let Some(second) = self.frame.place(b) else {
            return Err(BuildError::Unknown);
        };
        self.joins.push((first, second))?;
        Ok(())
    }

    /// The netlist: two terminals are in one class exactly where the pairs join them. Takes memory for the classes.
    pub fn finish(self, alloc: Global) -> Result<Netlist, AllocError>
        ensures finished { IfOk result (λ n. IsFinished self n) }
        ensures sound { IfOk result (λ n. IsNetlist n) }
    {
        let Builder { name, frame, joins } = self;
        let labels = labels(alloc, frame.count(), &joins)?;
        let (classes, count) = numbers(alloc, &labels)?;
        Ok(Netlist::new(name, frame, classes, count))
    }
}
