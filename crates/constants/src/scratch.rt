// The lengths of scratch buffers that are large enough for every problem within the limits.
use crate::{entry, limit};

// One element per vertex, or per clique, of a pattern.
pub const VERTICES: usize = limit::PSD_SIZE as usize;

// One element per original row.
pub const ROWS: usize = limit::ROWS as usize;

// One element per augmented row.
pub const AUGMENTED_ROWS: usize = limit::AUGMENTED_ROWS as usize;

// The words of a cone map.
pub const MAP_WORDS: usize = limit::MAP_ENTRIES * entry::WORDS;
