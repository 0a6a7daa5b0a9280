// Which of several paths of one cost is taken: penalties for nodes, so that later nets find room. No clause speaks of them.
use crate::points::NetPoints;
use grid_core::{Grid, Node};
use rand_core::SeedableRng;
use rand_core::utils::NextWord;
use rand_pcg::Pcg32;
use std::alloc::{AllocError, Global};

/// How many rows below the ports' edge other nets' wires are held off, and how many in the columns of ports.
const EDGE_ROWS: u64 = 3;

const PORT_ROWS: u64 = 9;

/// What a node near the edge costs beside others, one in a port's column, and one beside a port on the edge itself.
const EDGE_PENALTY: u8 = 4;

const PORT_PENALTY: u8 = 4;

const BESIDE_PORT_PENALTY: u8 = 16;

/// What chance adds to a node's penalty is less than this.
const DRAWN_PENALTIES: u32 = 4;

/// What is preferred among paths of one cost.
#[derive(Clone, Copy)]
pub enum Ties {
    /// Nodes away from the ports' edge, on high metals.
    High,
    /// Nodes away from the ports' edge, and not beside those of terminals.
    Apart,
    /// As `High`, and besides nodes that are drawn by the words of a generator with this seed.
    Drawn(u32),
    /// The first path that is found.
    First,
}

/// Penalties of the nodes of a grid, by their numbers.
#[derive(Drop)]
struct Penalties {
    grid: Grid,
    marks: Vec<u8>,
}

impl Penalties {
    /// A penalty for each node of a grid, by its metal and row alone.
    fn begin(alloc: Global, grid: Grid, ties: Ties) -> Result<Self, AllocError> {
        let mut marks = Vec::new(alloc);
        for metal in 2..=grid.metals {
            let own = match ties {
                Ties::High | Ties::Drawn(_) => grid.metals - metal,
                Ties::Apart | Ties::First => 0,
            };
            for row in 0..grid.rows {
                let mark = own.saturating_add(edge_penalty(&grid, row));
                for _ in 0..grid.columns {
                    marks.push(mark)?;
                }
            }
        }
        Ok(Penalties { grid, marks })
    }

    /// The place of a node among them, if the grid has it.
    fn place(&self, metal: u8, column: u64, row: u64) -> Option<usize> {
        let columns = u64::from(self.grid.columns);
        if metal < 2 || column >= columns || row >= u64::from(self.grid.rows) {
            return None;
        }
        let plane = u128::from(columns) * u128::from(self.grid.rows);
        let layer = u128::from(metal - 2) * plane;
        let at = layer + u128::from(row) * u128::from(columns) + u128::from(column);
        if at < self.marks.len() as u128 {
            Some(at as usize)
        } else {
            None
        }
    }

    /// A node's penalty grows.
    fn add(&mut self, metal: u8, column: u64, row: u64, more: u8) {
        let Some(at) = self.place(metal, column, row) else {
            return;
        };
        if at < self.marks.len() {
            self.marks[at] = self.marks[at].saturating_add(more);
        }
    }

    /// Each node's penalty grows by chance.
    fn draw(&mut self, seed: u32) {
        let mut words = Pcg32::seed_from_u64(u64::from(seed));
        for at in 0..self.marks.len() {
            let drawn = (words.next_word() % DRAWN_PENALTIES) as u8;
            self.marks[at] = self.marks[at].saturating_add(drawn);
        }
    }

    /// Other nets keep off the way from a port down into the block.
    fn add_port(&mut self, port: Node) {
        let column = u64::from(port.column);
        let edge = u64::from(port.row);
        for down in 0..PORT_ROWS {
            if down <= edge {
                self.add(port.metal, column, edge - down, PORT_PENALTY);
            }
        }
        self.add(
            port.metal.saturating_sub(1),
            column,
            edge,
            BESIDE_PORT_PENALTY,
        );
        self.add(
            port.metal.saturating_add(1),
            column,
            edge,
            BESIDE_PORT_PENALTY,
        );
    }

    /// They keep off the nodes on both sides of a terminal's, across the wires of their metal.
    fn add_terminal(&mut self, terminal: Node) {
        let column = u64::from(terminal.column);
        let row = u64::from(terminal.row);
        self.add(terminal.metal, column, row + 1, 1);
        self.add(terminal.metal, column, row.saturating_sub(1), 1);
        let above = terminal.metal.saturating_add(1);
        self.add(above, column + 1, row, 1);
        self.add(above, column.saturating_sub(1), row, 1);
    }
}

/// What a row costs near the ports' edge.
fn edge_penalty(grid: &Grid, row: u32) -> u8 {
    if u64::from(row) + EDGE_ROWS >= u64::from(grid.rows) {
        EDGE_PENALTY
    } else {
        0
    }
}

/// The penalties of the nodes of a grid over which these nets are routed; none where the first path is taken. Takes a byte for each node.
pub(crate) fn penalties_by(
    alloc: Global,
    grid: Grid,
    nets: &[NetPoints],
    ties: Ties,
) -> Result<Vec<u8>, AllocError> {
    if matches!(ties, Ties::First) {
        return Ok(Vec::new(alloc));
    }
    let mut penalties = Penalties::begin(alloc, grid, ties)?;
    if let Ties::Drawn(seed) = ties {
        penalties.draw(seed);
    }
    for net in nets {
        if let Some(port) = net.port {
            penalties.add_port(port);
        }
        if matches!(ties, Ties::Apart) {
            for terminal in &net.terminals {
                penalties.add_terminal(*terminal);
            }
        }
    }
    Ok(penalties.marks)
}
