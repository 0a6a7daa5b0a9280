// From a node to its neighbours, by number.
ghost use Rattle.std.specs.Prelude.{◌≡◌, ◌-◌, ◌<◌, ◌/◌, ◌%◌, None, Some, IfNone, IfSome};
ghost use Rattle.grid_core.specs.Numbers.{nodes, plane};
ghost use Rattle.nero_maze.specs.Ways.{number_at, next_at, next, opposite, weight, IsPlace};

use grid_core::Grid;

/// Where a node stands. Metals are counted from 0.
#[derive(Clone, Copy, Drop)]
pub(crate) struct Place {
    pub(crate) layer: u32,
    pub(crate) row: u32,
    pub(crate) column: u32,
}

/// Where a node stands, by its number.
pub(crate) fn place_of(grid: &Grid, node: u32) -> Place
    requires node { node < nodes grid.now }
    requires few { nodes grid.now < 4294967295 }
    ensures layer { result.layer ≡ node / plane grid.now }
    ensures row { result.row ≡ node % plane grid.now / grid.now.columns }
    ensures column { result.column ≡ node % plane grid.now % grid.now.columns }
    ensures within { IsPlace grid.now result }
{
    let plane = grid.columns * grid.rows;
    let rest = node % plane;
    Place {
        layer: node / plane,
        row: rest / grid.columns,
        column: rest % grid.columns,
    }
}

/// The number of a node by its place.
pub(crate) fn number_of_place(grid: &Grid, place: Place) -> u32
    requires few { nodes grid.now < 4294967295 }
    requires place { IsPlace grid.now place }
    ensures is { result ≡ number_at grid.now place.layer place.row place.column }
    ensures below { result < nodes grid.now }
{
    place.layer * (grid.columns * grid.rows) + (place.row * grid.columns + place.column)
}

/// A place with another column.
fn with_column(place: Place, column: u32) -> Place
    ensures layer { result.layer ≡ place.layer }
    ensures row { result.row ≡ place.row }
    ensures column { result.column ≡ column }
{
    Place {
        layer: place.layer,
        row: place.row,
        column,
    }
}

/// A place with another row.
fn with_row(place: Place, row: u32) -> Place
    ensures layer { result.layer ≡ place.layer }
    ensures row { result.row ≡ row }
    ensures column { result.column ≡ place.column }
{
    Place {
        layer: place.layer,
        row,
        column: place.column,
    }
}

/// A place on another metal.
fn with_layer(place: Place, layer: u32) -> Place
    ensures layer { result.layer ≡ layer }
    ensures row { result.row ≡ place.row }
    ensures column { result.column ≡ place.column }
{
    Place {
        layer,
        row: place.row,
        column: place.column,
    }
}

/// The neighbour of a place on one of the four ways.
#[tactic(auto, unfolding(crate::specs::Ways::next_at))]
pub(crate) fn beside(grid: &Grid, place: Place, way: u8) -> Option<Place>
    requires place { IsPlace grid.now place }
    requires way { way < 4 }
    ensures is { IfSome result (λ p. next_at grid.now place.layer place.row place.column way
        ≡ Some (number_at grid.now p.layer p.row p.column)) }
    ensures none { IfNone result (next_at grid.now place.layer place.row place.column way ≡ None) }
    ensures within { IfSome result (λ p. IsPlace grid.now p) }
{
    let level = place.layer % 2 == 0;
    if way == 0 {
        if level {
            if place.column < grid.columns - 1 {
                Some(with_column(place, place.column + 1))
            } else {
                None
            }
        } else {
            if place.row < grid.rows - 1 {
                Some(with_row(place, place.row + 1))
            } else {
                None
            }
        }
    } else if way == 1 {
        if level {
            if 0 < place.column {
                Some(with_column(place, place.column - 1))
            } else {
                None
            }
        } else {
            if 0 < place.row {
                Some(with_row(place, place.row - 1))
            } else {
                None
            }
        }
    } else if way == 2 {
        if place.layer + 1 < grid.metals as u32 - 1 {
            Some(with_layer(place, place.layer + 1))
        } else {
            None
        }
    } else {
        if 0 < place.layer {
            Some(with_layer(place, place.layer - 1))
        } else {
            None
        }
    }
}

/// The neighbour of a node on one of the four ways.
pub(crate) fn step(grid: &Grid, node: u32, way: u8) -> Option<u32>
    requires node { node < nodes grid.now }
    requires few { nodes grid.now < 4294967295 }
    requires way { way < 4 }
    ensures is { result ≡ next grid.now node way }
    ensures within { IfSome result (λ v. v < nodes grid.now) }
    ensures back { IfSome result (λ v. next grid.now v (opposite way) ≡ Some node) }
{
    match beside(grid, place_of(grid, node), way) {
        Some(place) => Some(number_of_place(grid, place)),
        None => None,
    }
}

/// The way back.
pub(crate) fn opposite_of(way: u8) -> u8
    requires { way < 4 }
    ensures is { result ≡ opposite way }
    ensures way { result < 4 }
{
    match way {
        0 => 1,
        1 => 0,
        2 => 3,
        _ => 2,
    }
}

/// What one step on a way costs.
pub(crate) fn weight_of(way: u8) -> u64
    requires { way < 4 }
    ensures { result ≡ weight way }
{
    if way < 2 { 1 } else { 3 }
}
