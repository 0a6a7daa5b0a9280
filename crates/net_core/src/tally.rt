// What terminals do in their classes, and how many do.
ghost use Rattle.std.specs.Prelude.{◌≡◌, ◌<◌, ◌^◌, length, map, IfOk, OnOk, ◌++◌};
ghost use Rattle.std.specs.List.{All, zip};
ghost use Rattle.net_core.specs.Checks.{with_one, port_role, pin_role, is_unconnected, has_fault, AtMost, AreTallies, IsFirstTally, IsFirstFault};

use crate::pins::ModelPin;
use std::alloc::{AllocError, Global};
use vlsi_base::{Dir, Port};

/// What a terminal does in its class.
#[derive(Clone, Copy, PartialEq, Eq)]
pub enum Role {
    InputPort,
    OutputPort,
    /// An input pin that is no clock pin.
    InputPin,
    ClockPin,
    OutputPin,
}

/// How many terminals of each role a class has.
#[derive(Clone, Copy)]
pub struct Tally {
    pub input_ports: usize,
    pub output_ports: usize,
    pub input_pins: usize,
    pub clock_pins: usize,
    pub output_pins: usize,
}

/// The role of a port.
pub fn port_role(port: &Port) -> Role
    ensures { result ≡ port_role port.now }
{
    match port.dir {
        Dir::In => Role::InputPort,
        Dir::Out => Role::OutputPort,
    }
}

/// The role of a model's pin.
pub fn pin_role(pin: &ModelPin) -> Role
    ensures { result ≡ pin_role pin.now }
{
    match pin.dir {
        Dir::In if pin.is_clock => Role::ClockPin,
        Dir::In => Role::InputPin,
        Dir::Out => Role::OutputPin,
    }
}

/// What can be wrong with a class, in the order in which it is looked for.
#[derive(Clone, Copy)]
pub enum ClassFault {
    Unconnected,
    NoDriver,
    TwoDrivers,
    ClockUse,
}

impl Tally {
    const NONE: Tally = Tally {
        input_ports: 0,
        output_ports: 0,
        input_pins: 0,
        clock_pins: 0,
        output_pins: 0,
    };

    /// Counts one more terminal.
    fn add(&mut self, role: Role)
        requires { AtMost 4294967295 self.old }
        ensures { self.new ≡ with_one role self.old }
    {
        match role {
            Role::InputPort => self.input_ports += 1,
            Role::OutputPort => self.output_ports += 1,
            Role::InputPin => self.input_pins += 1,
            Role::ClockPin => self.clock_pins += 1,
            Role::OutputPin => self.output_pins += 1,
        }
    }

    fn is_unconnected(&self) -> bool
        requires { AtMost 4294967295 self.now }
        ensures { result ≡ is_unconnected self.now }
    {
        self.input_pins + self.clock_pins == 1
            && self.input_ports + self.output_ports + self.output_pins == 0
    }

    /// Whether its class has a fault, in a netlist with so many clock pins.
    fn has(&self, fault: ClassFault, clocks: usize) -> bool
        requires { AtMost 4294967295 self.now }
        ensures { result ≡ has_fault fault clocks self.now }
    {
        match fault {
            ClassFault::Unconnected => self.is_unconnected(),
            ClassFault::NoDriver => {
                !self.is_unconnected()
                    && 1 <= self.input_pins + self.clock_pins + self.output_ports
                    && self.input_ports + self.output_pins == 0
            }
            ClassFault::TwoDrivers => 2 <= self.input_ports + self.output_pins,
            ClassFault::ClockUse => {
                1 <= self.clock_pins
                    && (self.input_ports == 0
                        || self.clock_pins < clocks
                        || 1 <= self.output_ports
                        || 1 <= self.input_pins)
            }
        }
    }
}

/// How many terminals of each role each class has, where roles and classes go together. Takes memory for each class.
pub fn tallies(
    alloc: Global,
    count: u32,
    roles: &[Role],
    classes: &[u32],
) -> Result<Vec<Tally>, AllocError>
    requires each { length roles.now ≡ length classes.now }
    requires inside { All (λ class. class < count) classes.now }
    requires few { length classes.now < 2 ^ 32 }
    ensures many { IfOk result (λ v. length v.items ≡ count) }
    ensures tallied { IfOk result (λ v. AreTallies (zip roles.now classes.now) v.items) }
{
    let mut tallies = vec![in alloc; Tally::NONE; count as usize]?;
    for k in 0..classes.len() {
        let role = roles[k];
        tallies[classes[k] as usize].add(role);
    }
    Ok(tallies)
}

/// The first class with a fault.
fn first_with(tallies: &[Tally], fault: ClassFault, clocks: usize) -> Option<usize>
    requires { All (AtMost 4294967295) tallies.now }
    ensures { IsFirstTally tallies.now fault clocks result }
{
    for k in 0..tallies.len() {
        if tallies[k].has(fault, clocks) {
            return Some(k);
        }
    }
    None
}

/// The first fault that a class has, and the first class that has it.
pub fn first_fault(tallies: &[Tally], clocks: usize) -> Option<(ClassFault, usize)>
    requires { All (AtMost 4294967295) tallies.now }
    ensures { IsFirstFault tallies.now clocks result }
{
    if let Some(class) = first_with(tallies, ClassFault::Unconnected, clocks) {
        return Some((ClassFault::Unconnected, class));
    }
    if let Some(class) = first_with(tallies, ClassFault::NoDriver, clocks) {
        return Some((ClassFault::NoDriver, class));
    }
    if let Some(class) = first_with(tallies, ClassFault::TwoDrivers, clocks) {
        return Some((ClassFault::TwoDrivers, class));
    }
    if let Some(class) = first_with(tallies, ClassFault::ClockUse, clocks) {
        return Some((ClassFault::ClockUse, class));
    }
    None
}
