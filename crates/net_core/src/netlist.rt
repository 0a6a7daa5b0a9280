// Netlists in memory.
ghost use Rattle.std.specs.Prelude.{◌≡◌, ◌<◌, ◌^◌, map, length, IfOk, OnOk, OnErr};
ghost use Rattle.net_core.specs.Checks.{HasNamesOfLeast};
ghost use Rattle.net_core.specs.Netlist.{IsNetlist, InTurn, IsClassOf, SetsModel, ReservesModels};
ghost use Rattle.net_core.specs.Frame.{frame_terminals, instance_of, AreNumbered, netlist_of};
ghost use Rattle.net_core.specs.Places.{IsThere, IsFirstPlace};
ghost use Rattle.std.specs.List.{All};

use crate::frame::{Frame, Node};
use std::alloc::{AllocError, Global};
use std::marker::Model;
use vlsi_base::{Names, Port, Terminal, Text, Texts};

/// A netlist: its ports, its instances, and the class of each terminal, where joined terminals are in one class. Ports and the
/// pins of an instance stand in the order of names, names of instances differ, and classes are numbered from 0 on in the order
/// of their least terminals.
#[derive(Drop)]
pub struct Netlist {
    name: Text,
    frame: Frame,
    classes: Vec<u32>,
    count: u32,
}

impl Model for Netlist {
    ghost use Rattle.std.specs.Prelude.{◌≡◌, length};
    ghost use Rattle.net_core.specs.Netlist.{Netlist as Meaning, InTurn};
    ghost use Rattle.net_core.specs.Frame.{frame_terminals, netlist_of};

    ghost Value = { Meaning };

    ghost view = { λ a. netlist_of a.name a.frame a.classes.items a.count };

    ghost invariant = { λ a. (length a.classes.items ≡ length (frame_terminals a.frame)) × InTurn 0 a.classes.items a.count };
}

impl Netlist {
    /// The netlist of these parts. Takes no memory.
    pub(crate) fn new(name: Text, frame: Frame, classes: Vec<u32>, count: u32) -> Self
        requires each { length classes.items ≡ length (frame_terminals frame) }
        requires turns { InTurn 0 classes.items count }
        ensures { result ≡ netlist_of name frame classes.items count }
    {
        Netlist {
            name,
            frame,
            classes,
            count,
        }
    }

    /// Its name.
    pub fn name(&self) -> &Text
        ensures { result.now ≡ self.now.name }
    {
        &self.name
    }

    /// The class of each terminal: of the ports in the order of names, then of the pins of each instance.
    pub fn classes(&self) -> &[u32]
        ensures classes { result.now ≡ self.now.classes }
        ensures few { length result.now < 2 ^ 32 }
        ensures sound { IsNetlist self.now }
    {
        let _ = self.frame.count();
        &self.classes
    }

    /// How many classes there are.
    pub fn count(&self) -> u32
        ensures { result ≡ self.now.count }
    {
        self.count
    }

    /// The class of a terminal; none exactly where it isn't there. Takes no memory, and time for the logarithms of the numbers of
    /// instances, ports and pins.
    pub fn class(&self, terminal: &Terminal) -> Option<u32>
        ensures { IsClassOf self.now terminal.now result }
    {
        match self.frame.place(terminal) {
            Some(place) => Some(self.classes[place as usize]),
            None => None,
        }
    }

    /// Its ports in the order of names.
    pub fn ports(&self) -> &[Port]
        ensures { result.now ≡ self.now.ports }
    {
        self.frame.ports()
    }

    /// The models that instances can be given, each once.
    pub fn models(&self) -> &[Text]
        ensures { result.now ≡ self.now.models }
    {
        self.frame.models()
    }

    /// Its instances in their order, each with the place of its model among the models.
    pub fn nodes(&self) -> &[Node]
        ensures seen { map (instance_of self.now.models) result.now ≡ self.now.instances }
        ensures known { All (λ i. i.model < length self.now.models) result.now }
        ensures numbered { AreNumbered self.now.ports result.now }
    {
        self.frame.nodes()
    }

    /// Makes room for models: afterwards each of these names is one that instances can be given, and all else is as it was. Takes
    /// memory for all models; without it all stays as it was.
    pub fn reserve_models(&mut self, alloc: Global, names: &Texts) -> Result<(), AllocError>
        ensures reserved { OnOk result (ReservesModels self.old self.new names.now) }
        ensures kept { OnErr result (self.new ≡ self.old) }
    {
        self.frame.reserve_models(alloc, names.as_slice())
    }

    /// Gives an instance, by its number, another model, which room was made for or another instance has. Takes no memory, and time
    /// for the logarithm of the number of models.
    pub fn set_model(&mut self, number: u32, model: &Text)
        requires there { number < length self.old.instances }
        requires known { IsThere self.old.models model.now }
        ensures { SetsModel self.old self.new number model.now }
    {
        self.frame.set_model(number, model);
    }

    /// The names of the least terminal of a class: a port by its name, a pin by its instance and its own name. Takes memory for
    /// them, and time for each terminal.
    pub(crate) fn least_names(&self, alloc: Global, class: u32) -> Result<Names, AllocError>
        requires { class < self.now.count }
        ensures { IfOk result (λ names. HasNamesOfLeast self.now class names) }
    {
        match first_place(&self.classes, class) {
            Some(place) => self.frame.names_at(alloc, place),
            None => Ok(Names::new(Vec::new(alloc))),
        }
    }
}

/// The first place at which a class stands.
fn first_place(classes: &[u32], class: u32) -> Option<usize>
    ensures { IsFirstPlace classes.now class result }
{
    for k in 0..classes.len() {
        if classes[k] == class {
            return Some(k);
        }
    }
    None
}
