//! The first placement of cells in rows: in their order, each row until it is as wide as its share; and where the cells of rows stand.
#![tactic(auto)]

mod fill;
mod law;
mod stand;

pub use fill::fill_rows;
pub use law::first_rows_are_even;
pub use stand::{row_numbers, rows_width, starts_of};
