// One gate of a library.
ghost use Rattle.std.specs.Prelude.{◌≡◌, IfSome, IfNone, false};
ghost use Rattle.cell_model.specs.Usable.{IsFormed};
ghost use Rattle.cell_checks.specs.declared.verdict.CellVerdict.TheVariants.{Passes};
ghost use Rattle.cell_checks.specs.Checks.{HasColumns};
ghost use Rattle.cell_checks.specs.Verdict.{IsVerdict};
ghost use Rattle.cell_word.specs.Words.{input_count};
ghost use Rattle.gate_cells.specs.Listed.{IsGateCell, IsNoGate};
ghost use Rattle.gate_cells.specs.Entries.{HasWidth};

use cell_match::CellWord;
use cell_model::{Cell, Pin, usable};
use cell_word::word_of;
use sym_geom::PITCH;
use vlsi_base::Dir;

/// A gate: its word, its width in columns, and its place in the library.
#[derive(Clone, Copy)]
pub(crate) struct Entry {
    pub(crate) word: CellWord,
    pub(crate) area: u32,
    pub(crate) place: usize,
}

fn count_inputs(pins: &[Pin]) -> usize
    ensures { result ≡ input_count pins.now }
{
    pins.iter().filter(|pin| pin.port.dir == Dir::In).count()
}

/// How many columns wide a cell is.
fn columns_of(cell: &Cell) -> u32
    requires { HasWidth cell.now }
    ensures { HasColumns cell.now result }
{
    let width = cell.bounds.x2 as u64;
    (width / u64::from(PITCH)) as u32
}

/// The entry of a cell at this place, which has passed its checks; None where it is no gate that a netlist may use.
pub(crate) fn entry_of(cell: &Cell, place: usize) -> Option<Entry>
    requires formed { IsFormed cell.now }
    requires passes { IsVerdict false cell.now Passes }
    ensures gate { IfSome result (λ x. IsGateCell cell.now x.word x.area) }
    ensures place { IfSome result (λ x. x.place ≡ place) }
    ensures none { IfNone result (IsNoGate cell.now) }
{
    if !usable(cell) {
        return None;
    }
    match word_of(cell) {
        Some(word) => Some(Entry {
            word: CellWord {
                inputs: count_inputs(cell.pins.as_slice()) as u8,
                word,
            },
            area: columns_of(cell),
            place,
        }),
        None => None,
    }
}
