// The public calls for C and Rust, one module per call. Each returns the refusal number, 0 for success; include/chordal.h explains the
// numbers.
#![tactic(auto)]

mod change_routes;
mod cut;
mod cut_between;
mod cut_many;
mod file_words;
mod generate;
mod generate_sizes;
mod inverse;
mod join;
mod pair_back;
mod pair_index;
mod pooled;
mod read_file;
mod renumbering;
mod same_layouts;
mod sizes;
mod write_file;

pub use change_routes::chordal_change_route;
pub use cut::chordal_cut;
pub use cut_between::chordal_cut_between;
pub use cut_many::chordal_cut_many;
pub use file_words::chordal_file_words;
pub use generate::chordal_generate;
pub use generate_sizes::chordal_generate_sizes;
pub use inverse::chordal_inverse;
pub use join::chordal_join;
pub use pair_back::chordal_pair_back;
pub use pair_index::chordal_pair_index;
pub use pooled::chordal_pool;
pub use read_file::chordal_read_file;
pub use renumbering::chordal_renumber;
pub use same_layouts::chordal_same_layout;
pub use sizes::chordal_sizes;
pub use write_file::chordal_write_file;
