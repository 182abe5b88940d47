// Makes checks 5, 6 and 7 on the patterns and counts their cliques and the rows of their blocks, in two walks over the cliques. Scratch buffers of 256 are enough: a valid
// pattern has at most its cone's 256 vertices; no snode is empty, so there are at most as many cliques; and a separator's members
// are vertices of later snodes, so no block is larger than its cone.
#![tactic(auto)]

ghost use Rattle.std.specs.Prelude.{◌≡◌, true, false, ◌&&◌, [], ◌+◌, ◌-◌, ◌*◌, ◌≤◌, ◌<◌, leb, is_some, IfSome, is_ok, IfOk, IfErr, length, take, drop};
ghost use Rattle.supernode_tree.specs.Reads.{cliques_from, is_whole};
ghost use Rattle.check_members.specs.OnceIn.{once_below_in};
ghost use Rattle.check_cliques.specs.Trees.{separator_below};
ghost use Rattle.layout.specs.General.Lists.{all};
ghost use Rattle.layout.specs.Checks.{cones_bounded, patterns_read, tree_right, cliques_right};
ghost use Rattle.layout.specs.General.Triangle.{triangle};
ghost use Rattle.layout.specs.Problems.Patterns.{patterns, read_head, read_clique, read_cliques, read_pattern};
ghost use Rattle.check_patterns.specs.Accepted.{Summed, AllClear, Met, AddsOnce, clique_right, SnodeHolds, snodes_right, SnodesHold, separators_fit, SeparatorsHold, Stand, head_right, vertices_right, VerticesHold, head_at, pattern_holds, PatternHolds, Added, PassedBefore};

use constants::{limit, scratch};
use supernode_tree::{Clique, Pattern};

// The totals over the cliques that passed: the offset of the word after them, their blocks' rows, and how many of these rows are overlaps.
#[derive(Clone, Copy)]
struct Blocks {
    next: usize,
    dim: u64,
    overlaps: u64,
}

// Sets the marks of the vertices `words` to `b`. Returns false, with some marks changed, if one of them is not below `n` or has the mark `b` already.
fn mark_all(words: &[u32], n: usize, b: bool, marks: &mut [bool]) -> bool
    requires { n ≤ length marks.old }
    ensures { AddsOnce b n marks.old words.now marks.new result }
{
    for &word in words {
        let x = word as usize;
        if n <= x {
            return false;
        }
        if marks[x] == b {
            return false;
        }
        marks[x] = b;
    }
    true
}

// Returns the number of rows of a block of side `k`.
fn rows(k: usize) -> u64
    requires { k ≤ 256 }
    ensures { (result ≡ triangle k) × (result ≤ 32896) }
{
    scalarmath::triangular_number(k as u32) as u64
}

// ---- parents and snodes

// Checks that the clique at offset `at`, number `c` of `count`, is complete, has a valid parent, and has a snode that is not empty.
fn clique_holds(words: &[u32], at: usize, c: u32, count: u32) -> bool
    requires { c < count }
    ensures { result ≡ clique_right count c (read_clique (drop at words.now)) }
{
    let Some(q) = Clique::read(words, at) else {
        return false;
    };
    q.snode_count != 0 && check_cliques::parent_right(q, c, count)
}

// Checks the same, and that each vertex of the clique's snode has its mark, which it clears. A vertex in two snodes fails at the second.
fn snode_holds(words: &[u32], p: Pattern, at: usize, c: u32, marks: &mut [bool]) -> bool
    requires { (c < p.clique_count) × (p.vertex_count ≤ length marks.old) }
    ensures { SnodeHolds words.now p at c marks.old marks.new result }
{
    if !clique_holds(words, at, c, p.clique_count) {
        return false;
    }
    let q = Clique::here(words, at);
    mark_all(&words[q.snode..q.separator], p.vertex_count, false, marks)
}

// Checks the same for all cliques of `p`, and writes the offset of each to `offsets`. Returns whether they pass and have as many snode vertices as `p`
// has vertices: then no mark is set.
fn snodes_hold(words: &[u32], p: Pattern, marks: &mut [bool], offsets: &mut [usize]) -> bool
    requires cliques_in_bounds { (p.cliques ≤ length words.now) × (p.vertex_count ≤ length marks.old) × (p.clique_count ≤ length offsets.old) }
    requires met { Met false p.vertex_count marks.old [] }
    ensures value { result ≡ snodes_right p.clique_count p.vertex_count (read_cliques p.clique_count (drop p.cliques words.now)) }
    ensures snodes_hold { result ≡ true → SnodesHold words.now p offsets.new × AllClear marks.new }
{
    let mut total = 0;
    let mut at = p.cliques;
    for c in 0..p.clique_count {
        if !snode_holds(words, p, at, c, &mut *marks) {
            return false;
        }
        offsets[c as usize] = at;
        let q = Clique::here(words, at);
        total += q.snode_count;
        at = q.next;
    }
    total == p.vertex_count
}

// ---- separators and blocks

// Checks that the separator `words[a..e]` has no duplicates, and that its members are below `n` and in its parent's clique `words[b..f]`. Members usually
// increase, and are then looked up here, inside the loop over the cliques; for members in any other order it calls `check_cliques::separator_right`.
fn separator_right(
    words: &[u32],
    a: usize,
    e: usize,
    b: usize,
    f: usize,
    n: usize,
    marks: &mut [bool],
) -> bool
    requires a_le_e { (a ≤ e) × (e ≤ length words.now) }
    requires b_le_f { (b ≤ f) × (f ≤ length words.now) }
    requires marks_nonzero { 0 < length marks.old }
    ensures { result ≡ once_below_in n (take (f - b) (drop b words.now)) (take (e - a) (drop a words.now)) }
{
    if f - b <= scratch::VERTICES && check_members::rises_below(&words[a..e], n) {
        return check_members::held(&words[a..e], &words[b..f]);
    }
    check_cliques::separator_right(words, a, e, b, f, n, marks)
}

// Checks that the block of clique `q` has at most 256 vertices, and that its separator has no duplicates and only vertices of its parent's clique, which
// is found through `offsets`.
fn separator_holds(
    words: &[u32],
    p: Pattern,
    q: Clique,
    offsets: &[usize],
    marks: &mut [bool],
) -> bool
    requires stand { Stand words.now p offsets.now }
    requires separator_le_next { (q.separator ≤ q.next) × (q.next ≤ length words.now) }
    requires separator_count_bound { q.snode_count + q.separator_count < 18446744073709551616 }
    requires marks_nonzero { 0 < length marks.old }
    ensures { result ≡ (leb (q.snode_count + q.separator_count) 256 && separator_below p.vertex_count (cliques_from words.now p.cliques p.clique_count) q.parent (take (q.next - q.separator) (drop q.separator words.now))) }
{
    if scratch::VERTICES < q.get_nblk() {
        return false;
    }
    if q.separator == q.next {
        return true;
    }
    if p.clique_count <= q.parent {
        return false;
    }
    let at = offsets[q.parent as usize];
    let m = Clique::here(words, at);
    separator_right(
        words,
        q.separator,
        q.next,
        m.snode,
        m.next,
        p.vertex_count,
        marks,
    )
}

// Returns the totals `b` with the block of clique `q` added.
fn with_clique(b: Blocks, q: Clique) -> Blocks
    requires separator_count_bound { q.snode_count + q.separator_count ≤ 256 }
    requires dim_bound { (b.dim + 32896 < 18446744073709551616) × (b.overlaps + 32896 < 18446744073709551616) }
    ensures { (result.next ≡ q.next) × (result.dim ≡ b.dim + triangle (q.snode_count + q.separator_count)) × (result.overlaps ≡ b.overlaps + triangle q.separator_count) }
{
    Blocks {
        next: q.next,
        dim: b.dim + rows(q.get_nblk()),
        overlaps: b.overlaps + rows(q.separator_count),
    }
}

// Checks the separator of each clique of `p`, and counts the rows and overlaps of the blocks. Returns the totals, or `None` if a clique fails.
fn separators_hold(
    words: &[u32],
    p: Pattern,
    offsets: &[usize],
    marks: &mut [bool],
) -> Option<Blocks>
    requires stand { Stand words.now p offsets.now }
    requires cliques_nonzero { (0 < p.cliques) × (p.cliques ≤ length words.now) }
    requires marks_nonzero { 0 < length marks.old }
    ensures value { is_some result ≡ separators_fit p.vertex_count (cliques_from words.now p.cliques p.clique_count) }
    ensures separators_hold { IfSome result (λ b. SeparatorsHold words.now p b) }
{
    let mut b = Blocks {
        next: p.cliques,
        dim: 0,
        overlaps: 0,
    };
    for _ in 0..p.clique_count {
        let q = Clique::here(words, b.next);
        if !separator_holds(words, p, q, offsets, &mut *marks) {
            return None;
        }
        b = with_clique(b, q);
    }
    Some(b)
}

// ---- patterns

// The totals over the patterns that passed: the offset of the word after them, the least cone number that the next pattern may have, the rows
// of the blocks, the rows of the decomposed cones, the overlaps, and the cliques.
#[derive(Clone, Copy)]
struct Walk {
    next: usize,
    least: u64,
    dim: u64,
    cut: u64,
    overlaps: u64,
    cliques: u64,
}

// Checks that the head of the pattern at offset `at` is complete and names a PSD cone of its size, numbered `least` or more, and that the pattern has
// 1 to 256 cliques and at most 256 vertices, so that the scratch buffers are long enough.
fn head_holds(cones: &[u32], words: &[u32], at: usize, least: u64) -> bool
    ensures { result ≡ head_right cones.now least (read_head (drop at words.now)) }
{
    let Some(p) = Pattern::read(words, at) else {
        return false;
    };
    if (p.orig_index as u64) < least {
        return false;
    }
    if p.clique_count == 0 {
        return false;
    }
    if limit::PSD_SIZE < p.clique_count {
        return false;
    }
    if scratch::VERTICES < p.vertex_count {
        return false;
    }
    supportedcone::is_psd_of(cones, p.orig_index as usize, p.vertex_count)
}

// Checks the head, the ordering and the snodes of the pattern at `w.next`: the ordering sets the mark of each vertex, and the snodes clear it. Writes the
// offset of each clique to `offsets`.
fn vertices_hold(
    cones: &[u32],
    words: &[u32],
    w: Walk,
    marks: &mut [bool],
    offsets: &mut [usize],
) -> bool
    requires { (256 ≤ length marks.old) × (256 ≤ length offsets.old) × AllClear marks.old }
    ensures value { result ≡ vertices_right cones.now w.least (read_head (drop w.next words.now)) }
    ensures vertices_hold { result ≡ true → VerticesHold cones.now words.now w offsets.new × AllClear marks.new }
{
    if !head_holds(cones, words, w.next, w.least) {
        return false;
    }
    let p = Pattern::here(words, w.next);
    mark_all(
        &words[p.ordering..p.cliques],
        p.vertex_count,
        true,
        &mut *marks,
    ) && snodes_hold(words, p, marks, offsets)
}

// Makes checks 5, 6 and 7 on the pattern at `w.next`. The scratch buffers are `marks` for its vertices, `offsets` for its cliques, and `others` for
// separators. Returns the totals over its blocks, or `None` if it fails.
fn pattern_holds(
    cones: &[u32],
    words: &[u32],
    w: Walk,
    marks: &mut [bool],
    offsets: &mut [usize],
    others: &mut [bool],
) -> Option<Blocks>
    requires in_bounds { (256 ≤ length marks.old) × (256 ≤ length offsets.old) × AllClear marks.old }
    requires others_nonzero { 0 < length others.old }
    requires cones_value { cones_bounded cones.now ≡ true }
    ensures value { is_some result ≡ pattern_holds cones.now w.least (read_pattern (drop w.next words.now)) }
    ensures pattern_holds { IfSome result (λ b. PatternHolds cones.now words.now w b × AllClear marks.new) }
{
    if !vertices_hold(cones, words, w, marks, &mut *offsets) {
        return None;
    }
    let p = Pattern::here(words, w.next);
    separators_hold(words, p, offsets, others)
}

// Returns the totals `w` with the pattern at `w.next` and its blocks `b` added.
fn with_pattern(words: &[u32], w: Walk, b: Blocks) -> Walk
    requires words_value { (is_whole (read_head (drop w.next words.now)) ≡ true) × ((head_at words.now w.next).vertex_count ≤ 256) × ((head_at words.now w.next).clique_count ≤ 256) }
    requires dim_bound { (w.dim + b.dim < 18446744073709551616) × (w.cut + 32896 < 18446744073709551616) × (w.overlaps + b.overlaps < 18446744073709551616) × (w.cliques + 256 < 18446744073709551616) }
    ensures { Added words.now w b result }
{
    let p = Pattern::here(words, w.next);
    Walk {
        next: b.next,
        least: p.orig_index as u64 + 1,
        dim: w.dim + b.dim,
        cut: w.cut + rows(p.vertex_count),
        overlaps: w.overlaps + b.overlaps,
        cliques: w.cliques + p.clique_count as u64,
    }
}

// The totals over all patterns: the rows of the blocks, the rows of the decomposed cones, the overlaps, and the cliques; and the place after the last.
#[derive(Clone, Copy)]
pub struct Accepted {
    pub dim: u64,
    pub cut: u64,
    pub overlaps: u64,
    pub cliques: u64,
    pub end: Stopped,
}

// The place of the first pattern that fails, or that after the last pattern. The patterns before offset `next` pass; from there on `left` patterns are
// left, whose first may not name a cone before `least`.
#[derive(Clone, Copy)]
pub struct Stopped {
    pub next: usize,
    pub least: u64,
    pub left: u32,
}

// Makes checks 5, 6 and 7 on `count` patterns in `words`. Returns the totals over all patterns if they pass, and otherwise the place of the first
// that fails.
pub fn patterns_hold(cones: &[u32], count: u32, words: &[u32]) -> Result<Accepted, Stopped>
    requires { cones_bounded cones.now ≡ true }
    ensures value { is_ok result ≡ (patterns_read cones.now count words.now && all tree_right (patterns count words.now) && all cliques_right (patterns count words.now)) }
    ensures summed { IfOk result (λ r. Summed (patterns count words.now) r × (r.dim ≤ count * 8421376) × (r.cliques ≤ count * 8421376)) }
    ensures passed_before { IfErr result (λ s. PassedBefore cones.now count words.now s.next s.least s.left) }
    ensures passed { IfOk result (λ r. PassedBefore cones.now count words.now r.end.next r.end.least r.end.left) }
{
    let mut marks = [false; scratch::VERTICES];
    let mut offsets = [0usize; scratch::VERTICES];
    let mut others = [false; scratch::VERTICES];
    let mut w = Walk {
        next: 0,
        least: 0,
        dim: 0,
        cut: 0,
        overlaps: 0,
        cliques: 0,
    };
    for i in 0..count {
        let Some(b) = pattern_holds(cones, words, w, &mut marks, &mut offsets, &mut others) else {
            return Err(Stopped {
                next: w.next,
                least: w.least,
                left: count - i,
            });
        };
        w = with_pattern(words, w, b);
    }
    let end = Stopped {
        next: w.next,
        least: w.least,
        left: 0,
    };
    if w.next != words.len() {
        return Err(end);
    }
    Ok(Accepted {
        dim: w.dim,
        cut: w.cut,
        overlaps: w.overlaps,
        cliques: w.cliques,
        end,
    })
}
