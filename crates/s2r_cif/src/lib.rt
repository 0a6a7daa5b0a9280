//! Real layouts: the shapes of a symbolic layout as boxes of a real process, and the CIF file of them.
//!
//! What the boxes of a layout are stands in `specs/Real.antt`, which layouts have none in `specs/Refused.antt`, and the bytes of
//! the file in `specs/Cif.antt`.
#![tactic(auto)]

mod cif;
mod error;
mod layout;
mod making;
mod mapping;
mod near;
mod scaling;
mod table;

pub use cif::write_cif;
pub use error::RealError;
pub use layout::{RealBox, RealLayout};
pub use making::{lower_metal, to_real};
pub use mapping::{cell_of, check_mappable};
pub use scaling::scaled;
pub use table::{MOST_GROW, MOST_SCALE, RealTable};
