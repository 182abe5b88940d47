// The tables of a problem file (docs/FILE.md), in their order in the file.
pub const P_STARTS: usize = 0;

pub const P_ROWS: usize = 1;

pub const P_VALUES: usize = 2;

pub const Q: usize = 3;

pub const A_STARTS: usize = 4;

pub const A_ROWS: usize = 5;

pub const A_VALUES: usize = 6;

pub const B: usize = 7;

pub const CONES: usize = 8;

pub const ALPHAS: usize = 9;

pub const PATTERN_WORDS: usize = 10;

pub const COUNT: usize = 11;

// The number of bytes of a u32 and of a double.
pub const WORD_BYTES: usize = 4;

pub const DOUBLE_BYTES: usize = 8;
