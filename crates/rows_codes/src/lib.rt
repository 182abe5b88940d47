// The codes of augmented rows in tables of numbers, which specs/ defines. No function is declared here.
#![tactic(auto)]

// A code below this is the original row that moves there; an overlap's code is this plus the row that it is tied to.
pub const FIRST_OVERLAP: u32 = constants::limit::ROWS;
