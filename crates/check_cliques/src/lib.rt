// Checks 6 and 7: the cliques of a pattern form a clique tree over its vertices.
#![tactic(auto)]

ghost use Rattle.std.specs.Prelude.{◌≡◌, ◌-◌, ◌*◌, ◌≤◌, ◌<◌, true, length, take, drop};
ghost use Rattle.layout.specs.General.Lists.{all, distinct, keep};
ghost use Rattle.layout.specs.Checks.{tree_right, cliques_right};
ghost use Rattle.layout.specs.Problems.Patterns.{read_pattern, read_patterns, patterns, ends_right};
ghost use Rattle.utils.specs.Windows.{within};
ghost use Rattle.supernode_tree.specs.Reads.{pattern_at, is_whole, Whole, cliques_from};
ghost use Rattle.supernode_tree.specs.Offsets.{OffsetsEvery};
ghost use Rattle.check_members.specs.OnceIn.{once_below_in};
ghost use Rattle.check_cliques.specs.Trees.{parent_ok, snodes_of, snodes_fill, snodes_ok, separators_below};

use constants::scratch;
use supernode_tree::{Clique, Pattern};

// ---- check 6

// Checks that clique number `c` of `count` has a later parent or, if it is the last, neither parent nor separator.
pub fn parent_right(q: Clique, c: u32, count: u32) -> bool
    requires { c < count }
    ensures { result ≡ parent_ok count c q.parent q.separator_count }
{
    if c + 1 == count {
        return q.parent == Clique::NO_PARENT && q.separator_count == 0;
    }
    c < q.parent && q.parent < count
}

// Makes check 6 on the pattern whose words start at offset `at`: at least one clique, and the parent of each is right.
pub fn tree_right(words: &[u32], at: usize) -> bool
    requires { is_whole (read_pattern (drop at words.now)) ≡ true }
    ensures { result ≡ tree_right (pattern_at words.now at) }
{
    let p = Pattern::here(words, at);
    let count = p.clique_count;
    let mut next = p.cliques;
    for c in 0..count {
        let q = Clique::here(words, next);
        if !parent_right(q, c, count) {
            return false;
        }
        next = q.next;
    }
    0 < count
}

// Makes check 6 on all `count` patterns. The last pattern's end is not looked for.
pub fn trees_right(count: u32, words: &[u32]) -> bool
    requires { ends_right (read_patterns count words.now) ≡ true }
    ensures { result ≡ all tree_right (patterns count words.now) }
{
    let mut at = 0;
    for i in 0..count {
        if !tree_right(words, at) {
            return false;
        }
        if i + 1 == count {
            return true;
        }
        at = supernode_tree::pattern_next(words, at);
    }
    true
}

// ---- check 7: snodes

// Checks that no snode of `p` is empty, that all snode members are below its vertex count, and that there are as many members in all.
fn snodes_fill(words: &[u32], p: Pattern) -> bool
    requires { Whole words.now p.cliques p.clique_count }
    ensures { result ≡ snodes_fill p.vertex_count (cliques_from words.now p.cliques p.clique_count) }
{
    let mut total = 0;
    let mut at = p.cliques;
    for _ in 0..p.clique_count {
        let q = Clique::here(words, at);
        if q.snode_count == 0 {
            return false;
        }
        if !utils::all_below(&words[q.snode..q.separator], p.vertex_count) {
            return false;
        }
        total += q.snode_count;
        at = q.next;
    }
    total == p.vertex_count
}

// Checks that the snodes hold no number twice, among the numbers from `low` to `low + marks.len() - 1` (a window). `marks` is overwritten.
fn snodes_once_within(words: &[u32], p: Pattern, low: usize, marks: &mut [bool]) -> bool
    requires { Whole words.now p.cliques p.clique_count }
    ensures { result ≡ distinct (keep (within low (length marks.old)) (snodes_of (cliques_from words.now p.cliques p.clique_count))) }
{
    utils::clear(&mut *marks);
    let mut at = p.cliques;
    for _ in 0..p.clique_count {
        let q = Clique::here(words, at);
        if !utils::mark(&words[q.snode..q.separator], low, &mut *marks) {
            return false;
        }
        at = q.next;
    }
    true
}

// Checks that no snode is empty and that the snodes together hold each number below the vertex count exactly once. Marks one window of
// `marks.len()` numbers at a time.
fn snodes_right(words: &[u32], p: Pattern, marks: &mut [bool]) -> bool
    requires whole { Whole words.now p.cliques p.clique_count }
    requires marks_nonzero { 0 < length marks.old }
    ensures { result ≡ snodes_ok p.vertex_count (cliques_from words.now p.cliques p.clique_count) }
{
    if !snodes_fill(words, p) {
        return false;
    }
    let mut low = 0;
    loop {
        if !snodes_once_within(words, p, low, &mut *marks) {
            return false;
        }
        if p.vertex_count - low <= marks.len() {
            return true;
        }
        low += marks.len();
    }
}

// ---- check 7: separators

// Checks that the separator in `words[a..e]` is duplicate-free, with members below `n` that are all in its parent's clique, `words[b..f]`.
pub fn separator_right(
    words: &[u32],
    a: usize,
    e: usize,
    b: usize,
    f: usize,
    n: usize,
    marks: &mut [bool],
) -> bool
    requires a_le_e { (a ≤ e) × (e ≤ length words.now) }
    requires b_le_f { (b ≤ f) × (f ≤ length words.now) }
    requires marks_nonzero { 0 < length marks.old }
    ensures { result ≡ once_below_in n (take (f - b) (drop b words.now)) (take (e - a) (drop a words.now)) }
{
    check_members::once_in(&words[a..e], &words[b..f], n, marks)
}

// Checks the separator of each clique. `offsets` holds the offset of every `step`-th clique, from which parents are found.
fn separators_by(
    words: &[u32],
    p: Pattern,
    step: u32,
    offsets: &[usize],
    marks: &mut [bool],
) -> bool
    requires whole { Whole words.now p.cliques p.clique_count }
    requires step_nonzero { (0 < step) × (p.clique_count ≤ length offsets.now * step) }
    requires offsets_every { OffsetsEvery step words.now p.cliques p.clique_count offsets.now }
    requires marks_nonzero { 0 < length marks.old }
    ensures { result ≡ separators_below p.vertex_count (cliques_from words.now p.cliques p.clique_count) }
{
    let mut at = p.cliques;
    for _ in 0..p.clique_count {
        let q = Clique::here(words, at);
        let m = supernode_tree::members_by(
            words,
            p.cliques,
            p.clique_count,
            step,
            offsets,
            q.parent,
        );
        if !separator_right(
            words,
            q.separator,
            q.next,
            m.start,
            m.end,
            p.vertex_count,
            &mut *marks,
        ) {
            return false;
        }
        at = q.next;
    }
    true
}

// Checks the separator of each clique. Fills `offsets` with the offset of every `step`-th clique, with `step` large enough for them to fit,
// so that parents are found fast.
fn separators_right(words: &[u32], p: Pattern, marks: &mut [bool], offsets: &mut [usize]) -> bool
    requires whole { Whole words.now p.cliques p.clique_count }
    requires marks_nonzero { (0 < length marks.old) × (256 ≤ length offsets.old) }
    ensures { result ≡ separators_below p.vertex_count (cliques_from words.now p.cliques p.clique_count) }
{
    let step = (p.clique_count as usize / offsets.len() + 1) as u32;
    supernode_tree::offsets_every(words, p.cliques, p.clique_count, step, &mut *offsets);
    separators_by(words, p, step, offsets, marks)
}

// ---- check 7

// Makes check 7 on the pattern at offset `at`, which passes check 6, with scratch buffers `marks` and `offsets`. By check 6 parents come
// later, so each separator member is in a later snode and below the vertex count.
fn cliques_right_by(words: &[u32], at: usize, marks: &mut [bool], offsets: &mut [usize]) -> bool
    requires words_value { (is_whole (read_pattern (drop at words.now)) ≡ true) × (tree_right (pattern_at words.now at) ≡ true) }
    requires marks_nonzero { (0 < length marks.old) × (256 ≤ length offsets.old) }
    ensures { result ≡ cliques_right (pattern_at words.now at) }
{
    let p = Pattern::here(words, at);
    snodes_right(words, p, &mut *marks) && separators_right(words, p, marks, offsets)
}

// Makes check 7 with scratch buffers on the stack.
fn cliques_right_with<const MARKS: usize, const OFFSETS: usize>(words: &[u32], at: usize) -> bool
    requires words_value { (is_whole (read_pattern (drop at words.now)) ≡ true) × (tree_right (pattern_at words.now at) ≡ true) }
    requires buffers { (0 < MARKS) × (MARKS ≤ 65536) × (256 ≤ OFFSETS) × (OFFSETS ≤ 65536) }
    ensures { result ≡ cliques_right (pattern_at words.now at) }
{
    let mut marks = [false; MARKS];
    let mut offsets = [0usize; OFFSETS];
    cliques_right_by(words, at, &mut marks, &mut offsets)
}

// The sizes of the scratch buffers for many vertices.
const MANY_MARKS: usize = 65536;

const MANY_OFFSETS: usize = 4096;

// Makes check 7 on the pattern at offset `at`, which passes check 6. Patterns with at most 256 vertices take one window of smaller buffers,
// faster to clear.
pub fn cliques_right(words: &[u32], at: usize) -> bool
    requires { (is_whole (read_pattern (drop at words.now)) ≡ true) × (tree_right (pattern_at words.now at) ≡ true) }
    ensures { result ≡ cliques_right (pattern_at words.now at) }
{
    let p = Pattern::here(words, at);
    if p.vertex_count <= scratch::VERTICES {
        return cliques_right_with::<{ scratch::VERTICES }, { scratch::VERTICES }>(words, at);
    }
    cliques_right_with::<MANY_MARKS, MANY_OFFSETS>(words, at)
}
