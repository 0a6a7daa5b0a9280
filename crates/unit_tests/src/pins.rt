// The connector rectangles of a cell's pins, worked out by hand.
ghost use Rattle.std.specs.Prelude.{◌<◌, ◌^◌, All, IfOk, length};
ghost use Rattle.sym_shapes.specs.Ready.{IsReady};
ghost use Rattle.cell_model.specs.Usable.{IsFormed};

use cell_model::{Cell, CellFunction, Function, pin_rects};
use std::alloc::{AllocError, Global};
use std::test::Fail;
use sym_geom::{
    Connector, Contact, Direction, Item, Items, Layer, Level, Rect, Segment, Side, Via,
};
use vlsi_base::{Listed, Name, Text};

/// A name of one letter, perhaps with a bit; none where the letter is `*`.
fn name_of(alloc: Global, letter: u8, bit: Option<u32>) -> Result<Option<Name>, AllocError> {
    if letter == b'*' {
        return Ok(None);
    }
    let text = Text::from_bytes(alloc, &[letter])?;
    Ok(Some(Name { text, bit }))
}

/// A wire of this width from (1000, 500) up to (1000, 1500).
fn upright(layer: Layer, width: u8, name: Option<Name>) -> Item
    requires { 0 < width }
    ensures { IsReady result }
{
    Item::Segment(Segment {
        x1: 1000,
        y1: 500,
        x2: 1000,
        y2: 1500,
        width: i64::from(width),
        name,
        direction: Direction::Up,
        layer,
    })
}

/// A wire of width 200 from (3000, 2000) left to (2000, 2000).
fn level(layer: Layer, name: Option<Name>) -> Item
    ensures { IsReady result }
{
    Item::Segment(Segment {
        x1: 3000,
        y1: 2000,
        x2: 2000,
        y2: 2000,
        width: 200,
        name,
        direction: Direction::Left,
        layer,
    })
}

/// A connector of width 301 at (-500, 4000).
fn square(layer: Layer, name: Option<Name>) -> Item
    ensures { IsReady result }
{
    Item::Connector(Connector {
        x: -500,
        y: 4000,
        width: 301,
        name,
        index: 0,
        side: Side::North,
        layer,
    })
}

/// A via at (0, 0).
fn via(name: Option<Name>) -> Item
    ensures { IsReady result }
{
    Item::Via(Via {
        x: 0,
        y: 0,
        contact: Contact::Via1,
        name,
    })
}

/// The lines of a cell with connectors of `a`, `b` and `a(0)`, and with lines that have these names and are no connectors, or
/// are none that show.
fn lines(alloc: Global) -> Result<Items, AllocError>
    ensures ready { IfOk result (λ items. All IsReady items) }
    ensures few { IfOk result (λ items. length items < 2 ^ 31) }
{
    let items = vec![in alloc;
        upright(Layer::Calu(Level::One), 200, name_of(alloc, b'a', None)?),
        level(Layer::Calu(Level::Two), name_of(alloc, b'b', None)?),
        upright(Layer::Alu(Level::One), 200, name_of(alloc, b'a', None)?),
        square(Layer::Alu(Level::Three), name_of(alloc, b'a', None)?),
        upright(Layer::Calu(Level::One), 200, name_of(alloc, b'*', None)?),
        via(name_of(alloc, b'a', None)?),
        upright(Layer::Calu(Level::One), 201, name_of(alloc, b'a', Some(0))?),
        square(Layer::NWell, name_of(alloc, b'a', None)?),
        level(Layer::Calu(Level::Seven), name_of(alloc, b'b', None)?),
        level(Layer::Calu(Level::One), name_of(alloc, b'a', None)?),
    ]?;
    Ok(Items::new(items))
}

fn cell(alloc: Global) -> Result<Cell, AllocError>
    ensures { IfOk result (λ c. IsFormed c) }
{
    let items = lines(alloc)?;
    Ok(Cell {
        name: Text::from_bytes(alloc, b"c")?,
        bounds: Rect {
            x1: 0,
            y1: 0,
            x2: 5000,
            y2: 5000,
        },
        items,
        pins: Listed::new(Vec::new(alloc)),
        function: CellFunction::new(Function::Opaque),
        arcs: Listed::new(Vec::new(alloc)),
    })
}

const UPRIGHT: Rect = Rect {
    x1: 900,
    y1: 400,
    x2: 1100,
    y2: 1600,
};

/// One wider than `UPRIGHT`, on the high side.
const WIDER: Rect = Rect {
    x1: 900,
    y1: 400,
    x2: 1101,
    y2: 1600,
};

const LEVEL: Rect = Rect {
    x1: 1900,
    y1: 1900,
    x2: 3100,
    y2: 2100,
};

const SQUARE: Rect = Rect {
    x1: -650,
    y1: 3850,
    x2: -349,
    y2: 4151,
};

/// A pin's letter and bit, and its rectangles in the order of the lines.
static ROWS: [(u8, Option<u32>, &[Rect]); 5] = [
    (b'a', None, &[UPRIGHT, SQUARE, LEVEL]),
    (b'b', None, &[LEVEL]),
    (b'a', Some(0), &[WIDER]),
    (b'a', Some(1), &[]),
    (b'c', None, &[]),
];

#[test]
fn pins_have_their_rectangles(rt: HostRuntime) -> Result<(), Fail> {
    let alloc = rt.alloc();
    let cell = cell(alloc)?;
    for (letter, bit, want) in &ROWS {
        let pin = Name {
            text: Text::from_bytes(alloc, &[*letter])?,
            bit: *bit,
        };
        let rects = pin_rects(alloc, &cell, &pin)?;
        assert!(rt; rects.as_slice() == *want, "at {letter} {bit:?}");
    }
    Ok(())
}
