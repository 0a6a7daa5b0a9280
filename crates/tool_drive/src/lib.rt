//! One driver for all tools: it reads what a tool wants, lets it judge, writes and prints what it answers, or tells why it
//! refuses.
//!
//! When each status comes and what it leaves stands in `specs/Table.antt`, once for all tools; what a tool reads, in
//! `specs/Plan.antt`; the lines of refusals, in `specs/Lines.antt`.
#![tactic(auto)]

mod line;
mod read;
mod refusals;
mod report;
mod run;
mod size;
mod status;
mod tool;

pub use line::tell;
pub use read::{Stop, read_list};
pub use refusals::{named_fault, refused, unknown_cell, whole_fault};
pub use report::{count_line, count_text, file_name, push_number};
pub use run::drive;
pub use size::{MOST_SIZE, check_size};
pub use status::{FileCause, LibraryFault, Status, Verdict};
pub use tool::{Answer, Product, Refusal, Tool, Wanted, Written, bytes_at};
pub use vlsi_base::Kind;
