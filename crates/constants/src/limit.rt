// The bounds of checks 1 and 10, each in the type of what it bounds.

// The number of unknowns, n.
pub const UNKNOWNS: u32 = 65536;

// The number of rows, m.
pub const ROWS: u32 = 65536;

// The number of entries of A, and of P.
pub const ENTRIES: usize = 262144;

pub const CONES: usize = 1024;

// Either size in a cone record.
pub const SIZE: u32 = 65536;

// The size of a PSD cone, and so the number of a pattern's vertices and of a clique's members.
pub const PSD_SIZE: u32 = 256;

// A row or column index of a PSD cone's matrix.
pub const INDEX: u32 = PSD_SIZE - 1;

// The svec index of a pair of such indices, in the packed upper triangle.
pub const PLACE: u32 = PSD_SIZE * (PSD_SIZE + 1) / 2 - 1;

// Check 10: the number of augmented rows.
pub const AUGMENTED_ROWS: u64 = 262144;

// Check 10 of the compact route: the number of overlaps.
pub const OVERLAPS: u64 = 131072;

// The number of cone map entries of a problem that passes these checks.
pub const MAP_ENTRIES: usize = 16384;
