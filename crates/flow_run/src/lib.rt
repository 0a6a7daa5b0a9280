//! The top call of the program: words in, files and a report out, a status with its cause.
//!
//! `alliance_main` is what the program does. What `flow` reads and answers stands in `specs/Flow.antt`, and what its layout is,
//! in `specs/Causes.antt` and `specs/RightLayout.antt`, of a state machine besides in `specs/States.antt`; what a run of `gen` is, in
//! `specs/Generated.antt`; when each status comes and what it leaves, for all tools, in `specs/Table.antt` of `tool_drive`; the words
//! of a command, in `specs/Commands.antt`. What each other tool reads and answers stands in the crate that is called like it, as
//! `syf_run` and `boom_run`.
#![tactic(auto)]

mod command;
mod decided;
mod flow;
mod gen_run;
mod layout;
mod one_library;
mod reading;
mod report;
mod right_layout;
mod row_layout;
mod source;
mod top;

pub use command::{Command, read_words};
pub use decided::{files_have_one_refusal, one_status};
pub use gen_run::{circuit_law, gen_law};
pub use one_library::{
    cell_is_never_refused, covered_lacks_nothing, libraries_are_same, library_is_never_refused,
    one_refusal, texts_are_same,
};
pub use reading::reading_law;
pub use right_layout::right_layout_law;
pub use top::alliance_main;
