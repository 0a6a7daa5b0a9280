// Structural texts as they are written. All lists are in file order, and lines are counted from 1.

use source_checks::Target;
use vlsi_base::{Entity, Listed, PortGroups, SignalGroup, Text};

/// A net as it is named: a port or signal of the text, or a bit or bits of one.
pub type NetName = Target;

/// A component: the line of its first token, its name, and its ports.
#[derive(Drop)]
pub struct Component {
    pub line: u32,
    pub name: Text,
    pub ports: PortGroups,
}

/// What stands between `is` and `begin`.
#[derive(Drop)]
pub enum Declaration {
    Component(Component),
    Signals(SignalGroup),
}

/// A pin as it is named, with its bit where one is written, and the line of its name.
#[derive(Drop)]
pub struct PinName {
    pub text: Text,
    pub bit: Option<u32>,
    pub line: u32,
}

/// What is joined: the pin before the arrow, and the net behind it.
#[derive(Drop)]
pub struct Association {
    pub pin: PinName,
    pub net: NetName,
}

/// An instance: its label and the line of that, the name of its component and the line of that, what its pins are joined to, and
/// the line of the parenthesis behind them.
#[derive(Drop)]
pub struct InstanceStatement {
    pub label: Text,
    pub line: u32,
    pub component: Text,
    pub component_line: u32,
    pub associations: Listed<Association>,
    pub end_line: u32,
}

/// A structural text.
#[derive(Drop)]
pub struct StructuralFile {
    pub entity: Entity,
    pub declarations: Listed<Declaration>,
    pub instances: Listed<InstanceStatement>,
}
