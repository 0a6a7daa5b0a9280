//! `proof` as a tool: two data-flow sources compared as functions, with an exact budget.
//!
//! What it reads and answers stands in `specs/Proof.antt`; when each status comes and what it leaves, for all tools, in
//! `specs/Table.antt` of `tool_drive`.
#![tactic(auto)]

mod proof;
mod words;

pub use words::{PROOF_ENTRY, ProofCommand};
