// Reads cliques and patterns from their words, by offsets: clarabel's `SuperNodeTree` without its vectors.
#![tactic(auto)]

ghost use Rattle.std.specs.Prelude.{◌≡◌, ◌+◌, ◌*◌, ◌≤◌, ◌<◌, true, map, length, drop, get_or, leb};
ghost use Rattle.layout.specs.General.Lists.{all, sum};
ghost use Rattle.layout.specs.General.Triangle.{triangle};
ghost use Rattle.layout.specs.Problems.Patterns.{no_clique, members as clique_members, block_size, read_clique, read_cliques, read_head, read_pattern, read_patterns, ends_right};
ghost use Rattle.layout.specs.Rows.Blocks.{block_rows, overlap_rows};
ghost use Rattle.layout.specs.Checks.{RightPattern};
ghost use Rattle.supernode_tree.specs.Reads.{pattern_at, rest, is_whole, Whole, cliques_from, MembersOf, clique_read, CliqueInside, pattern_read, PatternInside, end_read, ended};
ghost use Rattle.supernode_tree.specs.Offsets.{OffsetsEvery, OffsetsOf};
ghost use Rattle.supernode_tree.specs.Sizes.{block_at_most};

use scalarmath::triangular_number;

// ---- words

// Returns the word at offset `at`.
fn word(words: &[u32], at: usize) -> usize
    requires { at < length words.now }
    ensures value { result ≡ get_or words.now at 0 }
    ensures upper_bound { result < 4294967296 }
{
    words[at] as usize
}

// Returns whether there are `size` words from offset `at` on.
fn has_room(words: &[u32], at: usize, size: usize) -> bool
    ensures { result ≡ leb (at + size) (length words.now) }
{
    at <= words.len() && size <= words.len() - at
}

// The number of words before a clique's members (its parent and two counts), and before a pattern's ordering (its cone and two counts).
pub const HEAD_WORDS: usize = 3;

// ---- cliques and patterns at an offset

// A clique, by offsets into the words: its snode members start at `snode`, its separator members at `separator`, and it ends before `next`.
#[derive(Clone, Copy)]
pub struct Clique {
    pub parent: u32,
    pub snode: usize,
    pub snode_count: usize,
    pub separator: usize,
    pub separator_count: usize,
    pub next: usize,
}

impl Clique {
    pub const NO_PARENT: u32 = constants::NONE;

    // Returns whether the words from offset `at` on hold a complete clique.
    fn stands(words: &[u32], at: usize) -> bool
        ensures { result ≡ is_whole (read_clique (drop at words.now)) }
    {
        if !has_room(words, at, HEAD_WORDS) {
            return false;
        }
        has_room(
            words,
            at + HEAD_WORDS,
            word(words, at + 1) + word(words, at + 2),
        )
    }

    // Returns the clique at offset `at`, or `None` if the words end before the clique does.
    pub fn read(words: &[u32], at: usize) -> Option<Clique>
        ensures result_value { clique_read words.now result ≡ read_clique (drop at words.now) }
        ensures clique_inside { CliqueInside (length words.now) at result }
    {
        if !Clique::stands(words, at) {
            return None;
        }
        Some(Clique::here(words, at))
    }

    // Returns the clique at offset `at`, which must be complete: its counts are not checked.
    pub fn here(words: &[u32], at: usize) -> Clique
        requires { is_whole (read_clique (drop at words.now)) ≡ true }
        ensures result_value { clique_read words.now (Some result) ≡ read_clique (drop at words.now) }
        ensures clique_inside { CliqueInside (length words.now) at (Some result) }
    {
        let parent = words[at];
        let snode_count = word(words, at + 1);
        let separator_count = word(words, at + 2);
        let snode = at + HEAD_WORDS;
        let separator = snode + snode_count;
        Clique {
            parent,
            snode,
            snode_count,
            separator,
            separator_count,
            next: separator + separator_count,
        }
    }

    // Returns the side of the clique's block: its number of vertices.
    pub fn get_nblk(self) -> usize
        requires { self.snode_count + self.separator_count < 18446744073709551616 }
        ensures { result ≡ self.snode_count + self.separator_count }
    {
        self.snode_count + self.separator_count
    }
}

// A pattern, by offsets into the words: its ordering has `vertex_count` words from `ordering` on, its first clique starts at `cliques`.
#[derive(Clone, Copy)]
pub struct Pattern {
    pub orig_index: u32,
    pub vertex_count: usize,
    pub clique_count: u32,
    pub ordering: usize,
    pub cliques: usize,
}

impl Pattern {
    // Returns whether the words from offset `at` on hold a complete head: a pattern up to the end of its ordering.
    fn stands(words: &[u32], at: usize) -> bool
        ensures { result ≡ is_whole (read_head (drop at words.now)) }
    {
        if !has_room(words, at, HEAD_WORDS) {
            return false;
        }
        has_room(words, at + HEAD_WORDS, word(words, at + 1))
    }

    // Returns the pattern at offset `at` without its cliques, or `None` if the words end before its ordering does.
    pub fn read(words: &[u32], at: usize) -> Option<Pattern>
        ensures result_value { pattern_read words.now result ≡ read_head (drop at words.now) }
        ensures pattern_inside { PatternInside (length words.now) at result }
    {
        if !Pattern::stands(words, at) {
            return None;
        }
        Some(Pattern::here(words, at))
    }

    // Returns the same where the head is complete: the vertex count is not checked.
    pub fn here(words: &[u32], at: usize) -> Pattern
        requires { is_whole (read_head (drop at words.now)) ≡ true }
        ensures result_value { pattern_read words.now (Some result) ≡ read_head (drop at words.now) }
        ensures pattern_inside { PatternInside (length words.now) at (Some result) }
    {
        let orig_index = words[at];
        let vertex_count = word(words, at + 1);
        let clique_count = words[at + 2];
        let ordering = at + HEAD_WORDS;
        Pattern {
            orig_index,
            vertex_count,
            clique_count,
            ordering,
            cliques: ordering + vertex_count,
        }
    }
}

// ---- walks over words that may end early

// Returns the offset after `count` cliques that start at `first`, or `None` if the words end early.
fn cliques_end(words: &[u32], first: usize, count: u32) -> Option<usize>
    ensures { end_read words.now result ≡ ended (read_cliques count (drop first words.now)) }
{
    let mut at = first;
    for _ in 0..count {
        at = Clique::read(words, at)?.next;
    }
    Some(at)
}

// Returns the offset after the pattern at offset `at`, or `None` if the words end early.
fn pattern_end(words: &[u32], at: usize) -> Option<usize>
    ensures { end_read words.now result ≡ ended (read_pattern (drop at words.now)) }
{
    let p = Pattern::read(words, at)?;
    cliques_end(words, p.cliques, p.clique_count)
}

// Returns whether `words` hold `count` complete patterns and nothing after them.
pub fn patterns_end(count: u32, words: &[u32]) -> bool
    ensures { result ≡ ends_right (read_patterns count words.now) }
{
    let mut at = 0;
    for _ in 0..count {
        let Some(next) = pattern_end(words, at) else {
            return false;
        };
        at = next;
    }
    words.len() <= at
}

// ---- walks over complete words

// Returns the offset after `count` complete cliques that start at `first`.
pub fn cliques_next(words: &[u32], first: usize, count: u32) -> usize
    requires { Whole words.now first count }
    ensures { rest (read_cliques count (drop first words.now)) ≡ drop result words.now }
{
    let mut at = first;
    for _ in 0..count {
        at = Clique::here(words, at).next;
    }
    at
}

// Returns the offset after the complete pattern at offset `at`.
pub fn pattern_next(words: &[u32], at: usize) -> usize
    requires { is_whole (read_pattern (drop at words.now)) ≡ true }
    ensures { rest (read_pattern (drop at words.now)) ≡ drop result words.now }
{
    let p = Pattern::here(words, at);
    cliques_next(words, p.cliques, p.clique_count)
}

// ---- offsets, for access to cliques in any order

// Writes the offset of every `step`-th of the `count` cliques that start at `first` to `out`.
pub fn offsets_every(words: &[u32], first: usize, count: u32, step: u32, out: &mut [usize])
    requires whole { Whole words.now first count }
    requires step_nonzero { (0 < step) × (count ≤ length out.old * step) }
    ensures { OffsetsEvery step words.now first count out.new }
{
    let mut at = first;
    let mut left = count;
    let mut i = 0;
    while step < left {
        out[i] = at;
        at = cliques_next(words, at, step);
        left -= step;
        i += 1;
    }
    if left == 0 {
        return;
    }
    out[i] = at;
}

// Writes the offset of each of the `count` cliques that start at `first` to `out`.
pub fn clique_offsets(words: &[u32], first: usize, count: u32, out: &mut [usize])
    requires whole { Whole words.now first count }
    requires count_in_bounds { count ≤ length out.old }
    ensures { OffsetsOf words.now first count out.new }
{
    offsets_every(words, first, count, 1, out);
}

// The members of a clique, by offsets into the words: they start at `start` and end before `end`.
#[derive(Clone, Copy)]
pub struct Members {
    pub start: usize,
    pub end: usize,
}

// Returns the members of clique `c` of `count`, walking from the last of the `offsets` at or before it; no members if there is no clique `c`.
pub fn members_by(
    words: &[u32],
    first: usize,
    count: u32,
    step: u32,
    offsets: &[usize],
    c: u32,
) -> Members
    requires whole { Whole words.now first count }
    requires step_nonzero { (0 < step) × (count ≤ length offsets.now * step) }
    requires offsets_every { OffsetsEvery step words.now first count offsets.now }
    ensures { MembersOf words.now (clique_members (get_or (cliques_from words.now first count) c no_clique)) result }
{
    if count <= c {
        return Members { start: 0, end: 0 };
    }
    let i = c / step;
    let at = cliques_next(words, offsets[i as usize], c - i * step);
    let q = Clique::here(words, at);
    Members {
        start: q.snode,
        end: q.next,
    }
}

// ---- block sizes

// The rows of some blocks, and how many of these rows are overlaps.
#[derive(Clone, Copy)]
pub struct Decomposed {
    pub dim: u64,
    pub overlaps: u64,
}

// Counts the rows and the overlaps of the blocks of `count` cliques that start at `first`; no block has more than 256 vertices.
fn dim_and_overlaps(words: &[u32], first: usize, count: u32) -> Decomposed
    requires whole { Whole words.now first count }
    requires count_value { all (block_at_most 256) (cliques_from words.now first count) ≡ true }
    ensures dim_value { result.dim ≡ sum (map (λ c. triangle (block_size c)) (cliques_from words.now first count)) }
    ensures overlaps_value { result.overlaps ≡ sum (map (λ c. triangle (length c.separator)) (cliques_from words.now first count)) }
{
    let mut dim = 0;
    let mut overlaps = 0;
    let mut at = first;
    for _ in 0..count {
        let q = Clique::here(words, at);
        dim += triangular_number(q.get_nblk() as u32) as u64;
        overlaps += triangular_number(q.separator_count as u32) as u64;
        at = q.next;
    }
    Decomposed { dim, overlaps }
}

// Counts the rows and the overlaps of the blocks of the pattern at offset `at`, which passed the checks.
pub fn get_decomposed_dim_and_overlaps(words: &[u32], at: usize) -> Decomposed
    requires right_pattern { RightPattern (pattern_at words.now at) }
    requires at_bound { (pattern_at words.now at).vertex_count ≤ 256 }
    ensures dim_value { result.dim ≡ block_rows (pattern_at words.now at) }
    ensures overlaps_value { result.overlaps ≡ overlap_rows (pattern_at words.now at) }
{
    let p = Pattern::here(words, at);
    dim_and_overlaps(words, p.cliques, p.clique_count)
}
