// Writes the codes of one pattern's augmented rows on the compact route, block by block: the original row of an owned entry, and 65,536 plus
// the parent block's row of an overlap.
#![tactic(auto)]

ghost use Rattle.std.specs.Prelude.{◌≡◌, true, map, reverse, ◌+◌, ◌<◌, ◌≤◌, length, drop};
ghost use Rattle.layout.specs.General.Lists.{written, below, join, sum};
ghost use Rattle.layout.specs.General.Triangle.{triangle};
ghost use Rattle.layout.specs.Problems.Patterns.{read_clique};
ghost use Rattle.layout.specs.Rows.Blocks.{pattern_rows, block_rows};
ghost use Rattle.layout.specs.Checks.{RightPattern};
ghost use Rattle.supernode_tree.specs.Reads.{is_whole, pattern_at};
ghost use Rattle.rows_blocks.specs.Cliques.{SortableClique};
ghost use Rattle.rows_codes.specs.Codes.{cut_code};
ghost use Rattle.rows_overlaps.specs.Tables.{AllFound, size_here, FirstRows, Tied, tied_here, codes_here, CliquesTied, Coded};

use constants::scratch;
use rows_blocks::{clique_rows, clique_vertices};
use rows_parent::{code_block, note_places};
use scalarmath::triangular_number;
use supernode_tree::{Clique, Pattern, clique_offsets};

// ---- the first row of each block

// Counts the rows of the block of the clique at offset `at`.
fn block_rows(words: &[u32], at: usize) -> u32
    requires words_value { is_whole (read_clique (drop at words.now)) ≡ true }
    requires at_bound { size_here words.now at ≤ 262144 }
    ensures { result ≡ size_here words.now at }
{
    let q = Clique::here(words, at);
    triangular_number(q.get_nblk() as u32)
}

// Writes to `out[c]` the first augmented row of clique c's block. Cliques are placed from last to first, from row `first` on.
fn first_rows(words: &[u32], offsets: &[usize], first: u32, out: &mut [u32])
    requires all_found { AllFound words.now offsets.now × (length offsets.now ≤ length out.old) }
    requires offsets_bound { first + sum (map (size_here words.now) offsets.now) ≤ 262144 }
    ensures { FirstRows words.now offsets.now first out.new }
{
    let mut row = first;
    for c in (0..offsets.len()).rev() {
        out[c] = row;
        row += block_rows(words, offsets[c]);
    }
}

// ---- codes

// Writes the codes of the clique at offset `at`, whose parent is the clique at offset `parent` with its block from row `start` on.
// `base` is the cone's first original row. Returns the number of codes.
fn tied_rows(
    words: &[u32],
    ordering: &[u32],
    at: usize,
    parent: usize,
    base: u32,
    start: u32,
    out: &mut [u32],
) -> usize
    requires sortable_clique { SortableClique words.now ordering.now at × SortableClique words.now ordering.now parent }
    requires ordering_bound { (base + triangle (length ordering.now) ≤ 65536) × (start ≤ 262144) }
    requires at_in_bounds { length (tied_here base start words.now ordering.now parent at) ≤ length out.old }
    ensures value { result ≡ length (tied_here base start words.now ordering.now parent at) }
    ensures out_after { out.new ≡ written (tied_here base start words.now ordering.now parent at) out.old }
{
    let mut vertices = [0u32; scratch::VERTICES];
    let n = clique_vertices(words, ordering, parent, &mut vertices);
    let mut places = [0u32; scratch::VERTICES];
    note_places(&vertices[..n], &mut places);
    let k = clique_vertices(words, ordering, at, &mut vertices);
    code_block(out, &vertices[..k], &places, base, start)
}

// Writes the codes of clique `c`; the last clique has no parent and owns all its entries. `starts` holds the first row of each block.
// Returns the number of codes.
fn code_rows(
    words: &[u32],
    ordering: &[u32],
    offsets: &[usize],
    starts: &[u32],
    c: usize,
    base: u32,
    out: &mut [u32],
) -> usize
    requires tied { Tied words.now ordering.now offsets.now starts.now × (c < length offsets.now) }
    requires ordering_bound { base + triangle (length ordering.now) ≤ 65536 }
    requires c_in_bounds { length (codes_here base words.now ordering.now offsets.now starts.now c) ≤ length out.old }
    ensures value { result ≡ length (codes_here base words.now ordering.now offsets.now starts.now c) }
    ensures out_after { out.new ≡ written (codes_here base words.now ordering.now offsets.now starts.now c) out.old }
{
    let at = offsets[c];
    if c + 1 == offsets.len() {
        return clique_rows(words, ordering, at, base, out);
    }
    let parent = Clique::here(words, at).parent as usize;
    tied_rows(
        words,
        ordering,
        at,
        offsets[parent],
        base,
        starts[parent],
        out,
    )
}

// Writes the codes of all cliques, from last to first. Returns the number of codes.
fn codes_down(
    words: &[u32],
    ordering: &[u32],
    offsets: &[usize],
    starts: &[u32],
    base: u32,
    out: &mut [u32],
) -> usize
    requires tied { Tied words.now ordering.now offsets.now starts.now }
    requires ordering_bound { base + triangle (length ordering.now) ≤ 65536 }
    requires offsets_in_bounds { length (join (codes_here base words.now ordering.now offsets.now starts.now) (reverse (below (length offsets.now)))) ≤ length out.old }
    ensures value { result ≡ length (join (codes_here base words.now ordering.now offsets.now starts.now) (reverse (below (length offsets.now)))) }
    ensures out_after { out.new ≡ written (join (codes_here base words.now ordering.now offsets.now starts.now) (reverse (below (length offsets.now)))) out.old }
{
    let mut t = 0;
    for c in (0..offsets.len()).rev() {
        t += code_rows(words, ordering, offsets, starts, c, base, &mut out[t..]);
    }
    t
}

// Writes the codes of the cliques at `offsets`, from last to first, whose blocks start at augmented row `first`. Returns the number of codes.
fn block_codes(
    words: &[u32],
    ordering: &[u32],
    offsets: &[usize],
    base: u32,
    first: u32,
    out: &mut [u32],
) -> usize
    requires all_found { AllFound words.now offsets.now × (length offsets.now ≤ 256) }
    requires offsets_bound { first + sum (map (size_here words.now) offsets.now) ≤ 262144 }
    requires ordering_bound { base + triangle (length ordering.now) ≤ 65536 }
    requires cliques_tied { CliquesTied base first words.now ordering.now offsets.now (length out.old) }
    ensures { Coded base first words.now ordering.now offsets.now result out.old out.new }
{
    let mut starts = [0u32; scratch::VERTICES];
    first_rows(words, offsets, first, &mut starts);
    codes_down(words, ordering, offsets, &starts, base, out)
}

// Writes the codes of the compact rows of the pattern at offset `at`, cliques from last to first. `base` is the cone's first original row
// and `first` its first augmented row. Returns the number of codes.
pub fn compact_pattern_rows(
    words: &[u32],
    at: usize,
    base: u32,
    first: u32,
    out: &mut [u32],
) -> usize
    requires right_pattern { RightPattern (pattern_at words.now at) }
    requires at_bound { ((pattern_at words.now at).vertex_count ≤ 256) × (base + triangle (pattern_at words.now at).vertex_count ≤ 65536) }
    requires at_bound_2 { (first + block_rows (pattern_at words.now at) ≤ 262144) × (block_rows (pattern_at words.now at) ≤ length out.old) }
    ensures value { result ≡ block_rows (pattern_at words.now at) }
    ensures out_after { out.new ≡ written (map cut_code (pattern_rows (pattern_at words.now at) base first)) out.old }
{
    let p = Pattern::here(words, at);
    let mut offsets = [0usize; scratch::VERTICES];
    clique_offsets(words, p.cliques, p.clique_count, &mut offsets);
    let ordering = &words[p.ordering..p.cliques];
    let offsets = &offsets[..p.clique_count as usize];
    block_codes(words, ordering, offsets, base, first, out)
}
