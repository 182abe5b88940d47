// The numbers of the routes; a larger number is no route.
pub const STANDARD: u32 = 0;

pub const COMPACT: u32 = 1;
