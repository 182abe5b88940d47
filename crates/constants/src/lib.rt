// The numbers of document 01 that the code compares with, returns and counts by, each under one name.
#![tactic(auto)]

pub mod entry;
pub mod file_table;
pub mod header;
pub mod limit;
pub mod record;
pub mod refusal;
pub mod route;
pub mod scratch;

pub use refusal::{Refusal, number_of};

// Marks a clique without a parent, or a map entry without a pattern: CHORDAL_NONE of include/chordal.h.
pub const NONE: u32 = 4294967295;

// The number of outputs of the cut.
pub const OUTPUTS: usize = 11;
