// Joins the blocks of a pattern over its cone's rows, straight from their columns: s adds the block values; z adds them on the standard route,
// which walks the cliques from first to last, and keeps the last on the compact one, which walks from last to first.
#![tactic(auto)]

ghost use Rattle.std.specs.Prelude.{◌≡◌, true, false, [], ◌∷◌, map as mapped, reverse, suc, ◌+◌, ◌≤◌, ◌<◌, length, get_or, drop, T};
ghost use Rattle.layout.specs.General.Lists.{join, rises};
ghost use Rattle.layout.specs.General.Triangle.{triangle};
ghost use Rattle.layout.specs.Rows.Blocks.{block_rows};
ghost use Rattle.layout.specs.Checks.{RightPattern};
ghost use Rattle.layout.specs.Joinings.Reverse.{add_columns};
ghost use Rattle.supernode_tree.specs.Reads.{pattern_at, Whole, cliques_from};
ghost use Rattle.rows_blocks.specs.Columns.{ColumnsFit};
ghost use Rattle.rows_blocks.specs.Cliques.{SortableCliques, rows_here};
ghost use Rattle.reverse_standard.specs.Routes.{Starts};
ghost use Rattle.join_blocks.specs.Joins.{join_z, Counts, Countable, block_column_rows, block_rows_of, own_rows, rows_up, AllSortable, down_sizes};

use reverse_standard::{block_start, z_value};
use scalarmath::triangular_number;
use supernode_tree::{Clique, Pattern, clique_offsets};

// ---- a block

// Adds 1 to the count of row `o` on the standard route; the compact route counts nothing.
fn count_column(standard: bool, counts: &mut [u32], o: usize)
    requires { Countable standard (suc o) 1 counts.old }
    ensures { Counts standard (o ∷ []) counts.old counts.new }
{
    if standard {
        counts[o] += 1;
    }
}

// Joins column `j` of the block over sorted `vertices`, whose values start at index `t` of `s` and `z`, into `s_out` and `z_out`.
fn join_column(
    standard: bool,
    vertices: &[u32],
    j: usize,
    t: usize,
    s: &[f64],
    z: &[f64],
    s_out: &mut [f64],
    z_out: &mut [f64],
    counts: &mut [u32],
)
    requires t { T (rises vertices.now) × (j < length vertices.now) × (t + j < length s.now) × (t + j < length z.now) }
    requires j_in_bounds { (triangle (suc (get_or vertices.now j 0)) ≤ length s_out.old) × (length z_out.old ≡ length s_out.old) × (length s_out.old ≤ 65536) }
    requires countable { Countable standard (length s_out.old) (suc j) counts.old }
    ensures s_out_after { s_out.new ≡ add_columns (block_column_rows vertices.now j) (drop t s.now) s_out.old }
    ensures z_out_after { z_out.new ≡ join_z standard (block_column_rows vertices.now j) (drop t z.now) z_out.old }
    ensures counts { Counts standard (block_column_rows vertices.now j) counts.old counts.new }
{
    let c = vertices[j];
    let row = triangular_number(c);
    for i in 0..j + 1 {
        let o = (row + vertices[i]) as usize;
        let k = t + i;
        s_out[o] = s_out[o] + s[k];
        z_out[o] = z_value(standard, z_out[o], z[k]);
        count_column(standard, &mut *counts, o);
    }
}

// Joins the block over sorted `vertices`, column by column; its values start at index `first` of `s` and `z`. Returns the index after its values.
fn join_block(
    standard: bool,
    vertices: &[u32],
    first: usize,
    s: &[f64],
    z: &[f64],
    s_out: &mut [f64],
    z_out: &mut [f64],
    counts: &mut [u32],
) -> usize
    requires t { T (rises vertices.now) × ColumnsFit 0 vertices.now (length s_out.old) }
    requires vertices_in_bounds { (first + triangle (length vertices.now) ≤ length s.now) × (first + triangle (length vertices.now) ≤ length z.now) }
    requires z_out_len { (length z_out.old ≡ length s_out.old) × (length s_out.old ≤ 65536) }
    requires countable { Countable standard (length s_out.old) (triangle (length vertices.now)) counts.old }
    ensures value { result ≡ first + triangle (length vertices.now) }
    ensures s_out_after { s_out.new ≡ add_columns (block_rows_of vertices.now) (drop first s.now) s_out.old }
    ensures z_out_after { z_out.new ≡ join_z standard (block_rows_of vertices.now) (drop first z.now) z_out.old }
    ensures counts { Counts standard (block_rows_of vertices.now) counts.old counts.new }
{
    let mut t = first;
    for j in 0..vertices.len() {
        join_column(
            standard,
            vertices,
            j,
            t,
            s,
            z,
            &mut *s_out,
            &mut *z_out,
            &mut *counts,
        );
        t += j + 1;
    }
    t
}

// ---- a pattern

// Joins the blocks of the `count` cliques from word `cliques` on into `s_out` and `z_out`, first to last, as the standard route does; their values
// start at index `first` of `s` and `z`. It goes on from each clique to the next in `words`, so it needs no table of offsets. `vertices` is a
// scratch buffer. Returns the index after the values.
fn join_cliques_up(
    words: &[u32],
    ordering: &[u32],
    cliques: usize,
    count: u32,
    first: usize,
    s: &[f64],
    z: &[f64],
    s_out: &mut [f64],
    z_out: &mut [f64],
    counts: &mut [u32],
    vertices: &mut [u32],
) -> usize
    requires whole { Whole words.now cliques count × AllSortable ordering.now (cliques_from words.now cliques count) }
    requires count_in_bounds { (first + length (rows_up ordering.now (cliques_from words.now cliques count)) ≤ length s.now) × (length z.now ≡ length s.now) }
    requires ordering_in_bounds { (triangle (length ordering.now) ≤ length s_out.old) × (length z_out.old ≡ length s_out.old) × (length s_out.old ≤ 65536) }
    requires countable { Countable true (length s_out.old) (length (rows_up ordering.now (cliques_from words.now cliques count))) counts.old }
    requires in_bounds { 256 ≤ length vertices.old }
    ensures value { result ≡ first + length (rows_up ordering.now (cliques_from words.now cliques count)) }
    ensures s_out_after { s_out.new ≡ add_columns (rows_up ordering.now (cliques_from words.now cliques count)) (drop first s.now) s_out.old }
    ensures z_out_after { z_out.new ≡ join_z true (rows_up ordering.now (cliques_from words.now cliques count)) (drop first z.now) z_out.old }
    ensures counts { Counts true (rows_up ordering.now (cliques_from words.now cliques count)) counts.old counts.new }
{
    let mut t = first;
    let mut at = cliques;
    for _ in 0..count {
        let q = Clique::here(words, at);
        let k = rows_blocks::clique_vertices(words, ordering, at, &mut *vertices);
        t = join_block(
            true,
            &vertices[..k],
            t,
            s,
            z,
            &mut *s_out,
            &mut *z_out,
            &mut *counts,
        );
        at = q.next;
    }
    t
}

// Joins the blocks of the cliques at `offsets` into `s_out` and `z_out`, last to first, as the compact route does; their values start at index
// `first` of `s` and `z`. It reads the start of each block from `map`, from entry `entry` on. `vertices` is a scratch buffer. Returns the index
// after the values.
fn join_cliques_down(
    words: &[u32],
    ordering: &[u32],
    offsets: &[usize],
    map: &[u32],
    entry: usize,
    first: usize,
    s: &[f64],
    z: &[f64],
    s_out: &mut [f64],
    z_out: &mut [f64],
    counts: &mut [u32],
    vertices: &mut [u32],
) -> usize
    requires sortable_cliques { SortableCliques words.now ordering.now offsets.now }
    requires offsets_in_bounds { (first + length (join (rows_here 0 words.now ordering.now) (reverse offsets.now)) ≤ length s.now) × (length z.now ≡ length s.now) }
    requires ordering_in_bounds { (triangle (length ordering.now) ≤ length s_out.old) × (length z_out.old ≡ length s_out.old) × (length s_out.old ≤ 65536) }
    requires in_bounds { 256 ≤ length vertices.old }
    requires starts { Starts false map.now entry first (mapped (λ o. length (rows_here 0 words.now ordering.now o)) (reverse offsets.now)) × (entry + length offsets.now < 18446744073709551616) }
    ensures value { result ≡ first + length (join (rows_here 0 words.now ordering.now) (reverse offsets.now)) }
    ensures s_out_after { s_out.new ≡ add_columns (join (rows_here 0 words.now ordering.now) (reverse offsets.now)) (drop first s.now) s_out.old }
    ensures z_out_after { z_out.new ≡ join_z false (join (rows_here 0 words.now ordering.now) (reverse offsets.now)) (drop first z.now) z_out.old }
{
    let mut t = first;
    for i in 0..offsets.len() {
        let start = block_start(false, t, map, entry + i);
        let at = offsets[offsets.len() - 1 - i];
        let k = rows_blocks::clique_vertices(words, ordering, at, &mut *vertices);
        t = join_block(
            false,
            &vertices[..k],
            start,
            s,
            z,
            &mut *s_out,
            &mut *z_out,
            &mut *counts,
        );
    }
    t
}

// Joins the blocks of the pattern at offset `at`, whose values start at index `first` and map entries at `entry`. The scratch buffers `offsets`, which
// the compact route alone uses, and `vertices` come from the caller, since clearing them would take longer than joining a small pattern. Returns
// the index after the values.
pub fn join_pattern(
    standard: bool,
    words: &[u32],
    at: usize,
    map: &[u32],
    entry: usize,
    first: usize,
    s: &[f64],
    z: &[f64],
    s_out: &mut [f64],
    z_out: &mut [f64],
    counts: &mut [u32],
    offsets: &mut [usize],
    vertices: &mut [u32],
) -> usize
    requires right_pattern { RightPattern (pattern_at words.now at) × ((pattern_at words.now at).vertex_count ≤ 256) }
    requires at_in_bounds { (triangle (pattern_at words.now at).vertex_count ≤ length s_out.old) × (length z_out.old ≡ length s_out.old) × (length s_out.old ≤ 65536) }
    requires at_in_bounds_2 { (first + block_rows (pattern_at words.now at) ≤ length s.now) × (length z.now ≡ length s.now) }
    requires countable { Countable standard (length s_out.old) (block_rows (pattern_at words.now at)) counts.old }
    requires in_bounds { (256 ≤ length offsets.old) × (256 ≤ length vertices.old) }
    requires starts { Starts standard map.now entry first (down_sizes (pattern_at words.now at)) × (entry ≤ 262144) }
    ensures value { result ≡ first + block_rows (pattern_at words.now at) }
    ensures s_out_after { s_out.new ≡ add_columns (own_rows standard (pattern_at words.now at)) (drop first s.now) s_out.old }
    ensures z_out_after { z_out.new ≡ join_z standard (own_rows standard (pattern_at words.now at)) (drop first z.now) z_out.old }
    ensures counts { Counts standard (own_rows standard (pattern_at words.now at)) counts.old counts.new }
{
    let p = Pattern::here(words, at);
    let a = p.ordering;
    let e = p.cliques;
    if standard {
        return join_cliques_up(
            words,
            &words[a..e],
            e,
            p.clique_count,
            first,
            s,
            z,
            s_out,
            z_out,
            counts,
            vertices,
        );
    }
    clique_offsets(words, e, p.clique_count, &mut *offsets);
    let k = p.clique_count as usize;
    join_cliques_down(
        words,
        &words[a..e],
        &offsets[..k],
        map,
        entry,
        first,
        s,
        z,
        s_out,
        z_out,
        counts,
        vertices,
    )
}
