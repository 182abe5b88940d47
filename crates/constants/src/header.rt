// The words of a problem file's header (docs/FILE.md), by index: the counts, the offset of each table, and the file's length.
use crate::file_table;

pub const N: usize = 0;

pub const M: usize = 1;

pub const P_ENTRIES: usize = 2;

pub const A_ENTRIES: usize = 3;

pub const CONES: usize = 4;

pub const ALPHAS: usize = 5;

pub const PATTERNS: usize = 6;

pub const PATTERN_WORDS: usize = 7;

pub const COUNTS: usize = 8;

pub const OFFSETS: usize = COUNTS;

pub const LENGTH: usize = OFFSETS + file_table::COUNT;

pub const WORDS: usize = LENGTH + 1;

pub const BYTES: usize = WORDS * file_table::WORD_BYTES;
