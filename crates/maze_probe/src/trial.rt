// What is routed.
ghost use Rattle.std.specs.Prelude.{◌≡◌, ◌<◌, ◌≤◌, ◌*◌};
ghost use Rattle.grid_core.specs.Numbers.{plane, nodes};

use grid_core::Grid;

/// A grid, and how many nets of how many terminals each are routed over it.
#[derive(Clone, Copy, Drop)]
pub struct Trial {
    pub grid: Grid,
    pub nets: u32,
    pub pins: u32,
    pub seed: u32,
    ghost high: { 3 ≤ grid.metals },
    ghost few_nodes: { nodes grid < 4294967295 },
    ghost wide: { 0 < grid.columns },
    ghost some: { 0 < pins },
    ghost room: { nets * pins ≤ plane grid },
}

impl Trial {
    /// A trial by its kind and the numbers behind it, where they are such that the grid has room for it.
    pub fn of(kind: &str, numbers: &[u32]) -> Option<Trial> {
        let &[metals, columns, rows, count, seed] = numbers else {
            return None;
        };
        let (nets, pins) = match kind {
            "pins" => (1, count),
            "pairs" => (count, 2),
            "triples" => (count, 3),
            _ => return None,
        };
        let metals = u8::try_from(metals).ok()?;
        if metals < 3 || columns == 0 || pins == 0 {
            return None;
        }
        let plane = u64::from(columns) * u64::from(rows);
        if plane >= u64::from(u32::MAX) || plane * u64::from(metals - 1) >= u64::from(u32::MAX) {
            return None;
        }
        if u64::from(nets) * u64::from(pins) > plane {
            return None;
        }
        Some(Trial {
            grid: Grid {
                metals,
                columns,
                rows,
            },
            nets,
            pins,
            seed,
        })
    }

    /// How many places of the lowest metal get a terminal.
    pub fn points(&self) -> u32
        ensures count { result ≡ self.now.nets * self.now.pins }
        ensures room { result ≤ plane self.now.grid }
    {
        self.nets * self.pins
    }

    /// How many places the lowest metal has.
    pub fn places(&self) -> u32
        ensures { result ≡ plane self.now.grid }
    {
        self.grid.columns * self.grid.rows
    }

    /// How many nodes the grid has.
    pub fn nodes(&self) -> u32
        ensures { result ≡ nodes self.now.grid }
    {
        self.places() * u32::from(self.grid.metals - 1)
    }
}
