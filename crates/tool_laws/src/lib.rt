//! Laws of tools: the words and the files decide the status.
#![tactic(auto)]

mod laws;

pub use laws::{
    area_has_one_status, boog_has_one_status, boom_has_one_status, druc_has_one_status,
    fmi_has_one_status, lvx_has_one_status, syf_has_one_status, tables_are_one,
};
