// The ports and instances of a netlist.
ghost use Rattle.std.specs.Prelude.{◌≡◌, ◌++◌, ◌∷◌, [], ◌+◌, ◌<◌, ◌^◌, None, map, length, IfOk, OnOk, OnErr, IfErr};
ghost use Rattle.std.specs.List.{All, flat_map};
ghost use Rattle.net_core.specs.Netlist.{port};
ghost use Rattle.net_core.specs.Named.{terminal_names, HasNamesAt};
ghost use Rattle.net_core.specs.Places.{IsThere, IsPlaceOf, position_of};
ghost use Rattle.net_core.specs.Netlist.{AreInOrder};
ghost use Rattle.net_core.specs.Frame.{frame_terminals, AddsInstance, IsNoPlaceFor, IsPinPlace, IsSound, instance_of, AreNumbered, SetsModelAt, ReservesNames, node_pins};

use crate::error::BuildError;
use crate::roll::Roll;
use std::alloc::{AllocError, Global};
use std::cmp::Ordering;
use std::marker::Model;
use vlsi_base::{Name, Names, Port, Ports, Terminal, Text};

/// An instance: its name, the place of its model among the models, the number of its first pin among the terminals, and its
/// pins in the order of names.
#[derive(Drop)]
pub struct Node {
    pub name: Text,
    pub model: usize,
    pub first: u32,
    pub pins: Names,
}

/// A netlist whose terminals aren't joined yet: its ports, the models that instances can be given, and its instances.
#[derive(Drop)]
pub struct Frame {
    ports: Ports,
    models: Roll,
    nodes: Vec<Node>,
    names: Roll,
    count: u32,
}

impl Model for Frame {
    ghost use Rattle.net_core.specs.Frame.{Frame as Parts, frame_of, IsFrame};

    ghost Value = { Parts };

    ghost view = { λ a. frame_of a.ports a.models a.nodes.items };

    ghost invariant = { λ a. IsFrame a.ports a.models a.nodes.items a.names a.count };
}

/// The place of a name among names in their order.
fn name_place(names: &[Name], name: &Name) -> Option<usize>
    requires { AreInOrder names.now }
    ensures { IsPlaceOf names.now name.now result }
{
    let mut low = 0;
    let mut high = names.len();
    while low < high {
        let middle = low + (high - low) / 2;
        match names[middle].compare(name) {
            Ordering::Less => low = middle + 1,
            Ordering::Greater => high = middle,
            Ordering::Equal => return Some(middle),
        }
    }
    None
}

/// The place of a name among the names of ports in their order.
fn port_place(ports: &[Port], name: &Name) -> Option<u32>
    requires order { AreInOrder (map (λ p. p.name) ports.now) }
    requires few { length ports.now < 2 ^ 32 }
    ensures { IsPlaceOf (map (λ p. p.name) ports.now) name.now result }
{
    let mut low = 0;
    let mut high = ports.len();
    while low < high {
        let middle = low + (high - low) / 2;
        let port = &ports[middle];
        match port.name.compare(name) {
            Ordering::Less => low = middle + 1,
            Ordering::Greater => high = middle,
            Ordering::Equal => return Some(middle as u32),
        }
    }
    None
}

/// The number of an instance's pin among the terminals.
fn pin_place(node: &Node, pin: &Name) -> Option<u32>
    requires order { AreInOrder node.now.pins }
    requires few { node.now.first + length node.now.pins < 2 ^ 32 }
    ensures { IsPinPlace node.now pin.now result }
{
    match name_place(node.pins.as_slice(), pin) {
        Some(place) => Some(node.first + place as u32),
        None => None,
    }
}

fn copy_names(alloc: Global, names: &[Name]) -> Result<Vec<Name>, AllocError>
    ensures { IfOk result (λ copies. copies.items ≡ names.now) }
{
    let mut copies = Vec::with_capacity(alloc, names.len())?;
    for name in names {
        copies.push(name.copy(alloc)?)?;
    }
    Ok(copies)
}

fn node_of(
    alloc: Global,
    name: &Text,
    model: usize,
    first: u32,
    pins: &Names,
) -> Result<Node, AllocError>
    ensures { IfOk result (λ made. made ≡ record { name = name.now; model = model; first = first; pins = pins.now }) }
{
    let name = name.copy(alloc)?;
    let pins = copy_names(alloc, pins.as_slice())?;
    Ok(Node {
        name,
        model,
        first,
        pins: Names::new(pins),
    })
}

/// Puts an instance of this name behind the others, and its name behind theirs. Without memory all stays as it was.
fn put(
    alloc: Global,
    nodes: &mut Vec<Node>,
    names: &mut Roll,
    name: &Text,
    node: Node,
) -> Result<(), AllocError>
    requires { position_of names.old name.now ≡ None }
    ensures nodes { OnOk result (nodes.new.items ≡ nodes.old.items ++ node ∷ []) }
    ensures names { OnOk result (names.new ≡ names.old ++ name.now ∷ []) }
    ensures err { OnErr result ((nodes.new.items ≡ nodes.old.items) × (names.new ≡ names.old)) }
{
    nodes.push(node)?;
    match names.push(alloc, name) {
        Ok(()) => Ok(()),
        Err(error) => {
            let _ = nodes.pop();
            Err(error)
        }
    }
}

impl Frame {
    /// No instances. Takes no memory.
    pub fn new(alloc: Global, ports: Ports) -> Self
        requires few { length ports < 2 ^ 32 }
        requires order { AreInOrder (map (λ p. p.name) ports) }
        ensures { result ≡ record { ports = ports; models = []; instances = [] } }
    {
        let count = ports.as_slice().len() as u32;
        Frame {
            ports,
            models: Roll::new(alloc),
            nodes: Vec::new(alloc),
            names: Roll::new(alloc),
            count,
        }
    }

    /// The number of terminals. Takes no memory.
    pub fn count(&self) -> u32
        ensures count { result ≡ length (frame_terminals self.now) }
        ensures sound { IsSound self.now }
    {
        let _ = self.models.texts();
        self.count
    }

    /// The number of a terminal, from 0. Takes no memory, and time for the logarithms of the numbers of instances, ports and pins.
    pub fn place(&self, terminal: &Terminal) -> Option<u32>
        ensures { IsPlaceOf (frame_terminals self.now) terminal.now result }
    {
        match &terminal.instance {
            None => port_place(self.ports.as_slice(), &terminal.pin),
            Some(owner) => match self.names.place(owner) {
                Some(place) => pin_place(&self.nodes[place], &terminal.pin),
                None => None,
            },
        }
    }

    /// Puts an instance behind the others; answers its number. Without memory all stays as it was.
    pub fn add(
        &mut self,
        alloc: Global,
        name: &Text,
        model: &Text,
        pins: &Names,
    ) -> Result<u32, BuildError>
        requires order { AreInOrder pins.now }
        requires few { length self.old.instances < 2 ^ 32 }
        requires room { length (frame_terminals self.old) + length pins.now < 2 ^ 32 }
        ensures number { IfOk result (λ k. k ≡ length self.old.instances) }
        ensures added { OnOk result (AddsInstance self.old self.new (record { name = name.now; model = model.now; pins = pins.now })) }
        ensures fresh { OnOk result (IsThere (map (λ i. i.name) self.old.instances) name.now → ⊥) }
        ensures refused { IfErr result (λ e. IsNoPlaceFor self.old.instances name.now e) }
        ensures kept { OnErr result (self.new ≡ self.old) }
    {
        if self.names.place(name).is_some() {
            return Err(BuildError::Twice);
        }
        let number = self.nodes.len() as u32;
        let mut node = node_of(alloc, name, 0, self.count, pins)?;
        let known = self.models.texts().len();
        node.model = self.models.learn(alloc, model)?;
        match put(alloc, &mut self.nodes, &mut self.names, name, node) {
            Ok(()) => {
                self.count += pins.as_slice().len() as u32;
                Ok(number)
            }
            Err(AllocError) => {
                self.models.shorten(known);
                Err(BuildError::Memory)
            }
        }
    }

    /// The ports. Takes no memory.
    pub fn ports(&self) -> &[Port]
        ensures { result.now ≡ self.now.ports }
    {
        self.ports.as_slice()
    }

    /// The models that instances can be given. Takes no memory.
    pub fn models(&self) -> &[Text]
        ensures { result.now ≡ self.now.models }
    {
        self.models.texts()
    }

    /// The instances. Takes no memory.
    pub fn nodes(&self) -> &[Node]
        ensures seen { map (instance_of self.now.models) result.now ≡ self.now.instances }
        ensures known { All (λ i. i.model < length self.now.models) result.now }
        ensures numbered { AreNumbered self.now.ports result.now }
    {
        &self.nodes
    }

    /// Makes room for models behind those that instances can be given. Takes memory for all; without it all stays as it was.
    pub fn reserve_models(&mut self, alloc: Global, names: &[Text]) -> Result<(), AllocError>
        ensures reserved { OnOk result (ReservesNames self.old self.new names.now) }
        ensures kept { OnErr result (self.new ≡ self.old) }
    {
        let models = self.models.extended(alloc, names)?;
        self.models = models;
        Ok(())
    }

    /// Gives an instance another model. Takes no memory.
    pub fn set_model(&mut self, number: u32, model: &Text)
        requires there { number < length self.old.instances }
        requires known { IsThere self.old.models model.now }
        ensures { SetsModelAt self.old self.new number model.now }
    {
        if let Some(place) = self.models.place(model) {
            self.nodes[number as usize].model = place;
        }
    }

    /// The names of a terminal, by its number: a port by its name, a pin by its instance and its own name. Takes memory for them, and
    /// time for each instance.
    pub fn names_at(&self, alloc: Global, place: usize) -> Result<Names, AllocError>
        requires { place < length (frame_terminals self.now) }
        ensures { IfOk result (λ names. HasNamesAt (frame_terminals self.now) place names) }
    {
        let ports = self.ports.as_slice();
        match ports.get(place) {
            Some(port) => port_names(alloc, &port.name),
            None => pin_names(alloc, &self.nodes, place - ports.len()),
        }
    }
}

fn port_names(alloc: Global, name: &Name) -> Result<Names, AllocError>
    ensures { IfOk result (λ names. names ≡ terminal_names (port name.now)) }
{
    let mut names = Names::new(Vec::new(alloc));
    names.push(name.copy(alloc)?)?;
    Ok(names)
}

/// The name of an instance and of its pin that is number `place` among all pins; none where there are fewer.
fn pin_names(alloc: Global, nodes: &[Node], place: usize) -> Result<Names, AllocError>
    ensures { IfOk result (λ names. place < length (flat_map node_pins nodes.now) → HasNamesAt (flat_map node_pins nodes.now) place names) }
{
    let mut names = Names::new(Vec::new(alloc));
    let mut rest = place;
    for node in nodes {
        match node.pins.as_slice().get(rest) {
            Some(pin) => {
                names.push(Name::scalar(node.name.copy(alloc)?))?;
                names.push(pin.copy(alloc)?)?;
                return Ok(names);
            }
            None => rest -= node.pins.as_slice().len(),
        }
    }
    Ok(names)
}
