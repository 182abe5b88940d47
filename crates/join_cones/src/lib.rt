// Joins the rows of s and z of one cone, on either route: an undecomposed cone, or a decomposed one from the blocks of its pattern.
// `standard` is true for the standard route and false for the compact one.
#![tactic(auto)]

ghost use Rattle.std.specs.Prelude.{◌≡◌, ◌+◌, ◌≤◌, length, drop};
ghost use Rattle.layout.specs.General.Lists.{part};
ghost use Rattle.layout.specs.General.Triangle.{triangle};
ghost use Rattle.layout.specs.Rows.Blocks.{block_rows};
ghost use Rattle.layout.specs.Checks.{RightPattern};
ghost use Rattle.supernode_tree.specs.Reads.{pattern_at};
ghost use Rattle.reverse_standard.specs.Routes.{Starts};
ghost use Rattle.join_blocks.specs.Joins.{down_sizes};
ghost use Rattle.join_cones.specs.Parts.{whole_values, z_averaged_by, s_cut, z_cut, written_at, CountsRows, Cleared, ClearsRows};

use scalarmath::triangular_number;
use supernode_tree::Pattern;

// ---- an undecomposed cone

// Writes `values`, a cone's values, to `out`: added to +0.0 on the standard route (so -0.0 becomes +0.0), copied on the compact one.
fn whole_values(standard: bool, out: &mut [f64], values: &[f64])
    requires { length values.now ≡ length out.old }
    ensures { out.new ≡ whole_values standard values.now }
{
    if standard {
        reverse_standard::sum_rows(out, values);
    } else {
        csc::copy_front(out, values);
    }
}

// Joins s or z of an undecomposed cone: reads `n` values of `values` from index `t` on and writes them to `out` from row `row` on.
pub fn join_whole(standard: bool, n: usize, row: usize, t: usize, values: &[f64], out: &mut [f64])
    requires { (t + n ≤ length values.now) × (row + n ≤ length out.old) }
    ensures { out.new ≡ written_at row (whole_values standard (part t (t + n) values.now)) out.old }
{
    let e = row + n;
    let b = t + n;
    whole_values(standard, &mut out[row..e], &values[t..b]);
}

// ---- a decomposed cone

// Counts the rows of the cone of the pattern at offset `at`.
pub fn cone_rows(words: &[u32], at: usize) -> usize
    requires { RightPattern (pattern_at words.now at) × ((pattern_at words.now at).vertex_count ≤ 256) }
    ensures { result ≡ triangle (pattern_at words.now at).vertex_count }
{
    let p = Pattern::here(words, at);
    triangular_number(p.vertex_count as u32) as usize
}

// Averages z on the standard route: divides each row by its count where that is above 1, and resets the counts of the rows to 0.
// On the compact route leaves `z` and `counts` unchanged.
fn average(standard: bool, z: &mut [f64], counts: &mut [u32])
    requires { CountsRows standard (length z.old) counts.old }
    ensures z_after { z.new ≡ z_averaged_by standard counts.old z.old }
    ensures clears_rows { ClearsRows standard (length z.old) counts.old counts.new }
{
    if standard {
        reverse_standard::take_averages(z, counts);
    }
}

// Writes s and z of a decomposed cone to `s_out` and `z_out`. The values of its blocks start at index `t`, its cone map entries at `entry`.
// On the standard route all `counts` are 0 before and after. Returns the index where the values of the blocks end.
fn join_rows(
    standard: bool,
    words: &[u32],
    at: usize,
    map: &[u32],
    entry: usize,
    t: usize,
    s: &[f64],
    z: &[f64],
    s_out: &mut [f64],
    z_out: &mut [f64],
    counts: &mut [u32],
    offsets: &mut [usize],
    vertices: &mut [u32],
) -> usize
    requires right_pattern { RightPattern (pattern_at words.now at) × ((pattern_at words.now at).vertex_count ≤ 256) }
    requires s_out_len { (length s_out.old ≡ triangle (pattern_at words.now at).vertex_count) × (length z_out.old ≡ triangle (pattern_at words.now at).vertex_count) }
    requires at_bound { (block_rows (pattern_at words.now at) ≤ 262144) × (t + block_rows (pattern_at words.now at) ≤ length s.now) × (length z.now ≡ length s.now) }
    requires counts_rows { CountsRows standard (length s_out.old) counts.old × Cleared standard counts.old }
    requires in_bounds { (256 ≤ length offsets.old) × (256 ≤ length vertices.old) }
    requires starts { Starts standard map.now entry t (down_sizes (pattern_at words.now at)) × (entry ≤ 262144) }
    ensures value { result ≡ t + block_rows (pattern_at words.now at) }
    ensures s_out_after { s_out.new ≡ s_cut standard (pattern_at words.now at) (drop t s.now) }
    ensures z_out_after { z_out.new ≡ z_cut standard (pattern_at words.now at) (drop t z.now) }
    ensures cleared { Cleared standard counts.new }
{
    s_out.fill(0.0);
    z_out.fill(0.0);
    let end = join_blocks::join_pattern(
        standard,
        words,
        at,
        map,
        entry,
        t,
        s,
        z,
        s_out,
        &mut *z_out,
        &mut *counts,
        offsets,
        vertices,
    );
    average(standard, z_out, counts);
    end
}

// Writes s and z of a decomposed cone to its `n` rows, from row `row` on. Otherwise like `join_rows`.
pub fn join_cut(
    standard: bool,
    words: &[u32],
    at: usize,
    n: usize,
    row: usize,
    map: &[u32],
    entry: usize,
    t: usize,
    s: &[f64],
    z: &[f64],
    s_out: &mut [f64],
    z_out: &mut [f64],
    counts: &mut [u32],
    offsets: &mut [usize],
    vertices: &mut [u32],
) -> usize
    requires right_pattern { RightPattern (pattern_at words.now at) × ((pattern_at words.now at).vertex_count ≤ 256) × (n ≡ triangle (pattern_at words.now at).vertex_count) }
    requires n_in_bounds { (row + n ≤ length s_out.old) × (row + n ≤ length z_out.old) }
    requires at_bound { (block_rows (pattern_at words.now at) ≤ 262144) × (t + block_rows (pattern_at words.now at) ≤ length s.now) × (length z.now ≡ length s.now) }
    requires counts_rows { CountsRows standard n counts.old × Cleared standard counts.old }
    requires in_bounds { (256 ≤ length offsets.old) × (256 ≤ length vertices.old) }
    requires starts { Starts standard map.now entry t (down_sizes (pattern_at words.now at)) × (entry ≤ 262144) }
    ensures value { result ≡ t + block_rows (pattern_at words.now at) }
    ensures s_out_after { s_out.new ≡ written_at row (s_cut standard (pattern_at words.now at) (drop t s.now)) s_out.old }
    ensures z_out_after { z_out.new ≡ written_at row (z_cut standard (pattern_at words.now at) (drop t z.now)) z_out.old }
    ensures cleared { Cleared standard counts.new }
{
    let e = row + n;
    join_rows(
        standard,
        words,
        at,
        map,
        entry,
        t,
        s,
        z,
        &mut s_out[row..e],
        &mut z_out[row..e],
        counts,
        offsets,
        vertices,
    )
}
