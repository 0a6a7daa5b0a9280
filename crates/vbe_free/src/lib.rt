//! Data-flow texts that may leave outputs free: from bytes to a machine, or to one whose outputs are left free in part.
#![tactic(auto)]

mod copying;
mod filling;
mod law;
mod misplaced;
mod reader;
mod reading;
mod second;
mod source;
mod tokens;
mod written;

pub use law::{free_source_has_few_names, never_both_free};
pub use reader::read_free_vbe;
pub use source::VbeSource;
