// The words of a cone map entry, by index.
pub const ORIG_INDEX: usize = 0;

pub const PATTERN: usize = 1;

pub const CLIQUE: usize = 2;

pub const FIRST_ROW: usize = 3;

pub const ROW_COUNT: usize = 4;

pub const WORDS: usize = 5;

// The pattern word of an entry whose cone is not decomposed.
pub const NO_PATTERN: u32 = crate::NONE;
