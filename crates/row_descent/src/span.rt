// How far the pins of a net reach along the rows.
ghost use Rattle.std.specs.Prelude.{◌≡◌, ◌-◌, ◌≤◌};
ghost use Rattle.row_descent.specs.Spans.{AreNear, span_of};

use row_meaning::Pin;

/// From the least x to the greatest. Where there are no pins, the least is the greatest number there is, and the greatest 0.
#[derive(Clone, Copy)]
pub(crate) struct Span {
    pub(crate) low: u64,
    pub(crate) high: u64,
}

/// How far a span reaches.
pub(crate) fn extent(span: Span) -> u64
    ensures { result ≡ span.high - span.low }
{
    span.high.saturating_sub(span.low)
}

/// The span of pins, where each cell begins at its place in `starts`. Takes time for each pin.
pub(crate) fn span_of(starts: &[u64], pins: &[Pin]) -> Span
    requires { AreNear starts.now pins.now }
    ensures { result ≡ span_of starts.now pins.now }
{
    let mut low = u64::MAX;
    let mut high = 0;
    for pin in pins {
        let x = starts[pin.cell as usize] + pin.x;
        low = low.min(x);
        high = high.max(x);
    }
    Span { low, high }
}
