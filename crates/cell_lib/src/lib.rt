//! Libraries of cells: the files that one has, and what stands in them.
//!
//! A library is a folder with the list CATAL of its cells, and for each cell that this list uses a behaviour, `NAME.vbe`, and a
//! layout, `NAME.ap`.
#![tactic(auto)]

mod behaviour;
mod causes;
mod cells;
mod error;
mod files;
mod laws;
mod layout;
mod library;
mod load;
mod make;
mod tool;

pub use behaviour::read_behaviour;
pub use error::LibError;
pub use files::{catal_file, cell_files, named_files};
pub use laws::library_law;
pub use layout::read_layout;
pub use library::{check_library, library_status, listed_library, read_library, read_list};
pub use load::{LibraryFiles, load_library};
pub use tool::{LibraryTool, WithLibrary};
