// The points of nets, and how far they lie apart.
ghost use Rattle.std.specs.Prelude.{◌≡◌, ◌<◌, ◌≤◌, ◌^◌, List, Some, length as list_length, map, slice_get};
ghost use Rattle.maze_nets.specs.Nets.{points_of, extent, half_box, along_axis};

use grid_core::Node;

/// The points of a net: that of its port, if it has one, then those of its terminals in order.
#[derive(Drop)]
pub struct NetPoints {
    pub port: Option<Node>,
    pub terminals: Vec<Node>,
}

impl NetPoints {
    /// How many points the net has.
    pub fn len(&self) -> usize
        ensures { result ≡ list_length (points_of self.now) }
    {
        let terminals: &[Node] = &self.terminals;
        match self.port {
            Some(_) => terminals.len() + 1,
            None => terminals.len(),
        }
    }

    /// The point with this number, counted from 0.
    pub fn point(&self, at: usize) -> Node
        requires { at < list_length (points_of self.now) }
        ensures { slice_get (points_of self.now) at ≡ Some result }
    {
        match self.port {
            Some(node) if at == 0 => node,
            Some(_) => self.terminals[at - 1],
            None => self.terminals[at],
        }
    }
}

/// The column or the row of a node.
fn along_axis(node: Node, upright: bool) -> u32
    ensures { result ≡ along_axis upright node }
{
    if upright { node.row } else { node.column }
}

/// How far the points of a net reach: from the least of their columns, or of their rows, to the greatest.
fn extent(net: &NetPoints, upright: bool) -> u32
    ensures { result ≡ extent (map (along_axis upright) (points_of net.now)) }
{
    let count = net.len();
    if count == 0 {
        return 0;
    }
    let first = along_axis(net.point(0), upright);
    let mut low = first;
    let mut high = first;
    for at in 1..count {
        let place = along_axis(net.point(at), upright);
        low = low.min(place);
        high = high.max(place);
    }
    high - low
}

/// Half the perimeter of the box of a net's points, in columns and rows.
pub(crate) fn half_perimeter(net: &NetPoints) -> u64
    ensures { result ≡ half_box (points_of net.now) }
{
    u64::from(extent(net, false)) + u64::from(extent(net, true))
}
