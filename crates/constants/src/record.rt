// The number of words of a cone record: its kind and two sizes.
pub const WORDS: usize = 3;
