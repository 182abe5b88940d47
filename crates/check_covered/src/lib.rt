// Check 9: on the compact route, the stored entries of A and the nonzero values of b must be in covered rows. Covered are the rows of
// undecomposed cones and those rows of decomposed cones that are in some clique's block.
#![tactic(auto)]

ghost use Rattle.std.specs.Prelude.{◌≡◌, suc, ◌+◌, ◌*◌, ◌≤◌, ◌<◌, true, false, ◌&&◌, ◌||◌, length, get_or, replicate, T, ltb, map, reverse};
ghost use Rattle.std.specs.Float.Ieee.{eq};
ghost use Rattle.layout.specs.General.Lists.{all, rises, up_from, join, Below};
ghost use Rattle.layout.specs.General.Floats.{zero64};
ghost use Rattle.layout.specs.Problems.Cones.{records};
ghost use Rattle.layout.specs.Problems.Patterns.{patterns};
ghost use Rattle.layout.specs.Rows.Blocks.{pairs, pair_row, parts};
ghost use Rattle.layout.specs.Checks.{Sound, RightPattern, covered_rows};
ghost use Rattle.supernode_tree.specs.Reads.{pattern_at};
ghost use Rattle.rows_blocks.specs.Vertices.{marked};
ghost use Rattle.rows_blocks.specs.Columns.{column_pairs, ColumnsFit};
ghost use Rattle.rows_blocks.specs.Cliques.{SortableClique as CliqueStands, SortableCliques, rows_here};
ghost use Rattle.check_covered.specs.Covered.{BlockFits, MarksPattern, rows_marked, values_marked, sides_marked, entries_right, sides_on};

use constants::scratch;
use rows_blocks::clique_vertices;
use scalarmath::triangular_number;
use supernode_tree::{Pattern, clique_offsets};
use walk_cones::{Met, Place};

// ---- marking the covered rows, in a table indexed by original row

// Marks the `count` rows from `first` on, those of an undecomposed cone.
fn mark_range(first: u32, count: u32, covered: &mut [bool])
    requires { (first + count ≤ length covered.old) × (first + count < 4294967296) }
    ensures { covered.new ≡ marked true (up_from first count) covered.old }
{
    for i in 0..count {
        covered[(first + i) as usize] = true;
    }
}

// Marks the rows of column `j` of a block with these vertices, in a cone whose first row is `base`.
fn mark_column(vertices: &[u32], j: usize, base: u32, covered: &mut [bool])
    requires j_in_bounds { (j < length vertices.now) × T (rises vertices.now) }
    requires block_fits { BlockFits base (suc (get_or vertices.now j 0)) (length covered.old) }
    ensures { covered.new ≡ marked true (map (pair_row base) (column_pairs vertices.now j)) covered.old }
{
    let c = vertices[j];
    let row = base + triangular_number(c);
    for i in 0..j + 1 {
        covered[(row + vertices[i]) as usize] = true;
    }
}

// Marks the rows of a block with these vertices, column by column, in a cone whose first row is `base`.
fn mark_block(vertices: &[u32], base: u32, covered: &mut [bool])
    requires { T (rises vertices.now) × ColumnsFit base vertices.now 65536 × ColumnsFit base vertices.now (length covered.old) }
    ensures { covered.new ≡ marked true (map (pair_row base) (pairs vertices.now)) covered.old }
{
    for j in 0..vertices.len() {
        mark_column(vertices, j, base, &mut *covered);
    }
}

// Marks the rows of the block of the clique at offset `at`.
fn mark_clique(words: &[u32], ordering: &[u32], at: usize, base: u32, covered: &mut [bool])
    requires clique_stands { CliqueStands words.now ordering.now at }
    requires block_fits { BlockFits base (length ordering.now) (length covered.old) }
    ensures { covered.new ≡ marked true (rows_here base words.now ordering.now at) covered.old }
{
    let mut vertices = [0u32; scratch::VERTICES];
    let k = clique_vertices(words, ordering, at, &mut vertices);
    mark_block(&vertices[..k], base, covered);
}

// Marks the rows of the blocks of the cliques at `offsets`, from last to first.
fn mark_cliques(words: &[u32], ordering: &[u32], offsets: &[usize], base: u32, covered: &mut [bool])
    requires sortable_cliques { SortableCliques words.now ordering.now offsets.now }
    requires block_fits { BlockFits base (length ordering.now) (length covered.old) }
    ensures { covered.new ≡ marked true (join (rows_here base words.now ordering.now) (reverse offsets.now)) covered.old }
{
    for c in (0..offsets.len()).rev() {
        mark_clique(words, ordering, offsets[c], base, &mut *covered);
    }
}

// Marks the rows of all blocks of the pattern at offset `at`; `base` is its cone's first row.
fn mark_pattern(words: &[u32], at: usize, base: u32, covered: &mut [bool])
    requires right_pattern { RightPattern (pattern_at words.now at) × ((pattern_at words.now at).vertex_count ≤ 256) }
    requires block_fits { BlockFits base (pattern_at words.now at).vertex_count (length covered.old) }
    ensures { MarksPattern (pattern_at words.now at) base covered.old covered.new }
{
    let p = Pattern::here(words, at);
    let mut offsets = [0usize; scratch::VERTICES];
    clique_offsets(words, p.cliques, p.clique_count, &mut offsets);
    let a = p.ordering;
    let e = p.cliques;
    let k = p.clique_count as usize;
    mark_cliques(words, &words[a..e], &offsets[..k], base, covered);
}

// Marks every covered row.
fn mark_covered(m: u32, cones: &[u32], count: u32, words: &[u32], covered: &mut [bool])
    requires sound { Sound m cones.now count words.now }
    requires m_in_bounds { m ≤ length covered.old }
    ensures { covered.new ≡ marked true (covered_rows (parts (records cones.now) (patterns count words.now))) covered.old }
{
    let mut place = Place::start(m, cones, count, words);
    loop {
        match place.next(m, cones, words) {
            Some(Met::Whole(size, next)) => {
                mark_range(place.row, size, &mut *covered);
                place = next;
            }
            Some(Met::Cut(at, next)) => {
                mark_pattern(words, at, place.row, &mut *covered);
                place = next;
            }
            None => {
                return;
            }
        }
    }
}

// Checks that the stored entries of A, with row indices `rows`, are in marked rows. The walk goes on after one that is not, so that it has one
// way out.
fn entries_covered(covered: &[bool], rows: &[u32]) -> bool
    requires { Below (length covered.now) rows.now }
    ensures { result ≡ rows_marked covered.now rows.now }
{
    let mut holds = true;
    for &row in rows {
        if !covered[row as usize] {
            holds = false;
        }
    }
    holds
}

// Returns whether a row may have the value `v`: a zero, or any value where the row is `marked`. A NaN is nonzero.
fn may_have(v: f64, marked: bool) -> bool
    ensures { result ≡ (eq v zero64 || marked) }
{
    v == 0.0 || marked
}

// Checks that the nonzero values of `b` are in marked rows. The walk goes on after one that is not, so that the compiler tests several at a time.
fn values_covered(covered: &[bool], b: &[f64]) -> bool
    requires { length b.now ≤ length covered.now }
    ensures { result ≡ values_marked covered.now b.now }
{
    let mut holds = true;
    for (i, &v) in b.iter().enumerate() {
        if !may_have(v, covered[i]) {
            holds = false;
        }
    }
    holds
}

// Checks that the nonzero values are in marked rows for each right side from number `first` up to, not including, number `last`.
// `sides` holds right sides of `m` values one after another.
fn sides_covered(covered: &[bool], m: u32, sides: &[f64], first: u32, last: u32) -> bool
    requires { (m ≤ length covered.now) × (last * m ≤ length sides.now) }
    ensures { result ≡ sides_marked covered.now m first last sides.now }
{
    let size = m as usize;
    for k in first..last {
        let start = k as usize * size;
        if !values_covered(covered, &sides[start..start + size]) {
            return false;
        }
    }
    true
}

// Makes check 9 on the entries of A and on `b`, over the table of marked rows.
fn first_covered(covered: &[bool], a_rows: &[u32], b: &[f64]) -> bool
    requires { Below (length covered.now) a_rows.now × (length b.now ≤ length covered.now) }
    ensures { result ≡ (rows_marked covered.now a_rows.now && values_marked covered.now b.now) }
{
    entries_covered(covered, a_rows) && values_covered(covered, b)
}

// The results of check 9: `first` on A and b, `further` on the values of further right sides.
#[derive(Clone, Copy)]
pub struct Covered {
    pub first: bool,
    pub further: bool,
}

// Makes check 9 on the compact route over the table `covered`, which must be all false.
fn sides_right_by(
    m: u32,
    cones: &[u32],
    count: u32,
    words: &[u32],
    a_rows: &[u32],
    b: &[f64],
    sides: &[f64],
    first: u32,
    last: u32,
    covered: &mut [bool],
) -> Covered
    requires sound { Sound m cones.now count words.now }
    requires t { T (all (λ r. ltb r m) a_rows.now) × (length b.now ≡ m) × (last * m ≤ length sides.now) }
    requires m_in_bounds { (m ≤ length covered.old) × (covered.old ≡ replicate (length covered.old) false) }
    ensures first_value { result.first ≡ entries_right m a_rows.now b.now (parts (records cones.now) (patterns count words.now)) }
    ensures further_value { result.further ≡ sides_on (covered_rows (parts (records cones.now) (patterns count words.now))) m first last sides.now }
{
    mark_covered(m, cones, count, words, &mut *covered);
    let right = first_covered(covered, a_rows, b);
    let further = sides_covered(covered, m, sides, first, last);
    Covered {
        first: right,
        further,
    }
}

// Makes check 9 on the compact route for A and `b`, and for the values of the right sides from `first` up to, not including, `last`.
// Covered rows are marked once for all sides. A problem with at most 4,096 rows uses a smaller table.
pub fn sides_right(
    m: u32,
    cones: &[u32],
    count: u32,
    words: &[u32],
    a_rows: &[u32],
    b: &[f64],
    sides: &[f64],
    first: u32,
    last: u32,
) -> Covered
    requires sound { Sound m cones.now count words.now }
    requires t { T (all (λ r. ltb r m) a_rows.now) × (length b.now ≡ m) × (last * m ≤ length sides.now) }
    ensures first_value { result.first ≡ entries_right m a_rows.now b.now (parts (records cones.now) (patterns count words.now)) }
    ensures further_value { result.further ≡ sides_on (covered_rows (parts (records cones.now) (patterns count words.now))) m first last sides.now }
{
    if m <= 4096 {
        let mut covered = [false; 4096];
        return sides_right_by(
            m,
            cones,
            count,
            words,
            a_rows,
            b,
            sides,
            first,
            last,
            &mut covered,
        );
    }
    let mut covered = [false; scratch::ROWS];
    sides_right_by(
        m,
        cones,
        count,
        words,
        a_rows,
        b,
        sides,
        first,
        last,
        &mut covered,
    )
}

// Makes check 9 on the compact route for a single right side. Returns whether it passes.
pub fn entries_right(
    m: u32,
    cones: &[u32],
    count: u32,
    words: &[u32],
    a_rows: &[u32],
    b: &[f64],
) -> bool
    requires sound { Sound m cones.now count words.now }
    requires t { T (all (λ r. ltb r m) a_rows.now) × (length b.now ≡ m) }
    ensures { result ≡ entries_right m a_rows.now b.now (parts (records cones.now) (patterns count words.now)) }
{
    sides_right(m, cones, count, words, a_rows, b, b, 0, 0).first
}
