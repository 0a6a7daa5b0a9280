//! Data-flow sources: their statements as they are written, their symbol table, what they mean, and the checks of names,
//! widths, drivers and forms.
#![tactic(auto)]

mod codes;
mod drivers;
mod forms;
mod marks;
mod places;
mod statement;
mod symbol_table;
mod twice;
mod undeclared;
mod widths;

pub use drivers::{DriverFault, NameFault, driver_fault};
pub use forms::{is_resolved, literal_fault, ports_form, supply_fault, unsupported};
pub use statement::{
    Assignment, Assignments, BlockStatement, Choice, DesignFile, Guarded, GuardedList, Selection,
    Statement, Statements, Target,
};
pub use symbol_table::{Role, Symbol, SymbolTable};
pub use twice::repeated;
pub use undeclared::{Place, unknown, unknown_name, unknown_read};
pub use widths::{
    Measure, condition_fault, declared_fault, differ, found_width, has_bit, measured, ports_fault,
    target_fault, target_width, value_fault, width_fault,
};
