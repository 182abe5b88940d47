// Puts a standard solution's x, s and z in compact order. Both routes have the same blocks; within a pattern the standard route has the cliques from
// first to last, the compact one from last to first.
#![tactic(auto)]

ghost use Rattle.std.specs.Prelude.{◌≡◌, true, ◌++◌, map, ◌+◌, ◌≤◌, length, take, drop, replicate};
ghost use Rattle.layout.specs.General.Lists.{all, sum, written};
ghost use Rattle.layout.specs.General.Floats.{zero64};
ghost use Rattle.layout.specs.Rows.Blocks.{block_rows, block_row_count};
ghost use Rattle.layout.specs.Checks.{Sound, RightPattern};
ghost use Rattle.layout.specs.Rows.Orders.{last_first, compact_order};
ghost use Rattle.layout.specs.Calls.Join.{joined_parts};
ghost use Rattle.supernode_tree.specs.Reads.{pattern_at, Whole, cliques_from};
ghost use Rattle.supernode_tree.specs.Sizes.{block_at_most, dim_of};
ghost use Rattle.join_cones.specs.Parts.{written_at};

use change_blocks::{move_both, move_values};
use supernode_tree::{Clique, Pattern};
use walk_cones::{Met, Place};

// ---- s and z

// Copies the blocks of the `count` cliques from word `first` on, from `s` to `s_out` and from `z` to `z_out`, in reverse order. Blocks are read from
// the first clique on, so each is written before the previous one.
fn move_blocks(
    words: &[u32],
    first: usize,
    count: u32,
    s: &[f64],
    z: &[f64],
    s_out: &mut [f64],
    z_out: &mut [f64],
)
    requires whole { Whole words.now first count × (all (block_at_most 256) (cliques_from words.now first count) ≡ true) }
    requires count_value { (sum (map dim_of (cliques_from words.now first count)) ≡ length s.now) × (length z.now ≡ length s.now) }
    requires s_out_len { (length s_out.old ≡ length s.now) × (length z_out.old ≡ length s.now) }
    ensures s_out_after { s_out.new ≡ last_first (map dim_of (cliques_from words.now first count)) s.now }
    ensures z_out_after { z_out.new ≡ last_first (map dim_of (cliques_from words.now first count)) z.now }
{
    let mut from = 0usize;
    let mut to = s_out.len();
    let mut at = first;
    for _ in 0..count {
        let q = Clique::here(words, at);
        let k = scalarmath::triangular_number(q.get_nblk() as u32) as usize;
        to -= k;
        move_both(k, from, s, z, to, &mut *s_out, &mut *z_out);
        from += k;
        at = q.next;
    }
}

// Copies the blocks of the cone that the pattern at word `at` cuts, in reverse order. They start at index `t` on both routes. Returns where they end.
fn move_cut(
    words: &[u32],
    at: usize,
    t: usize,
    s: &[f64],
    z: &[f64],
    s_out: &mut [f64],
    z_out: &mut [f64],
) -> usize
    requires right_pattern { RightPattern (pattern_at words.now at) × ((pattern_at words.now at).vertex_count ≤ 256) }
    requires at_in_bounds { (t + block_rows (pattern_at words.now at) ≤ length s.now) × (t + block_rows (pattern_at words.now at) ≤ length z.now) }
    requires at_in_bounds_2 { (t + block_rows (pattern_at words.now at) ≤ length s_out.old) × (t + block_rows (pattern_at words.now at) ≤ length z_out.old) }
    ensures value { result ≡ t + block_rows (pattern_at words.now at) }
    ensures s_out_after { s_out.new ≡ written_at t (last_first (map dim_of (pattern_at words.now at).cliques) (drop t s.now)) s_out.old }
    ensures z_out_after { z_out.new ≡ written_at t (last_first (map dim_of (pattern_at words.now at).cliques) (drop t z.now)) z_out.old }
{
    let p = Pattern::here(words, at);
    let blocks = supernode_tree::get_decomposed_dim_and_overlaps(words, at);
    let e = t + blocks.dim as usize;
    move_blocks(
        words,
        p.cliques,
        p.clique_count,
        &s[t..e],
        &z[t..e],
        &mut s_out[t..e],
        &mut z_out[t..e],
    );
    e
}

// Copies `s` and `z` cone by cone from standard to compact order. A cone's rows start at the same index on both routes.
fn move_parts(
    m: u32,
    cones: &[u32],
    count: u32,
    words: &[u32],
    s: &[f64],
    z: &[f64],
    s_out: &mut [f64],
    z_out: &mut [f64],
)
    requires sound { Sound m cones.now count words.now }
    requires words_in_bounds { (block_row_count (joined_parts cones.now count words.now) ≤ length s.now) × (block_row_count (joined_parts cones.now count words.now) ≤ length z.now) }
    requires words_in_bounds_2 { (block_row_count (joined_parts cones.now count words.now) ≤ length s_out.old) × (block_row_count (joined_parts cones.now count words.now) ≤ length z_out.old) }
    ensures s_out_after { s_out.new ≡ written (compact_order (joined_parts cones.now count words.now) s.now) s_out.old }
    ensures z_out_after { z_out.new ≡ written (compact_order (joined_parts cones.now count words.now) z.now) z_out.old }
{
    let mut place = Place::start(m, cones, count, words);
    let mut t = 0usize;
    loop {
        match place.next(m, cones, words) {
            Some(Met::Whole(rows, next)) => {
                let k = rows as usize;
                move_values(k, t, s, t, &mut *s_out);
                move_values(k, t, z, t, &mut *z_out);
                t += k;
                place = next;
            }
            Some(Met::Cut(at, next)) => {
                t = move_cut(words, at, t, s, z, &mut *s_out, &mut *z_out);
                place = next;
            }
            None => {
                break;
            }
        }
    }
}

// Writes the compact `s_out` and `z_out` of a standard solution's `s` and `z`. Their first `m` values are skipped: they belong to the Zero cone,
// which the compact route lacks.
pub fn change_slacks(
    m: u32,
    cones: &[u32],
    count: u32,
    words: &[u32],
    s: &[f64],
    z: &[f64],
    s_out: &mut [f64],
    z_out: &mut [f64],
)
    requires sound { Sound m cones.now count words.now }
    requires words_in_bounds { (m + block_row_count (joined_parts cones.now count words.now) ≤ length s.now) × (m + block_row_count (joined_parts cones.now count words.now) ≤ length z.now) }
    requires words_in_bounds_2 { (block_row_count (joined_parts cones.now count words.now) ≤ length s_out.old) × (block_row_count (joined_parts cones.now count words.now) ≤ length z_out.old) }
    ensures s_out_after { s_out.new ≡ written (compact_order (joined_parts cones.now count words.now) (drop m s.now)) s_out.old }
    ensures z_out_after { z_out.new ≡ written (compact_order (joined_parts cones.now count words.now) (drop m z.now)) z_out.old }
{
    let first = m as usize;
    move_parts(
        m,
        cones,
        count,
        words,
        &s[first..],
        &z[first..],
        s_out,
        z_out,
    );
}

// ---- x

// Copies the first `n` values of `x` to `out` and appends +0.0 for each of the `added` unknowns.
pub fn change_x(n: u32, x: &[f64], added: u64, out: &mut [f64])
    requires { (n ≤ length x.now) × (n + added ≤ length out.old) }
    ensures { out.new ≡ written (take n x.now ++ replicate added zero64) out.old }
{
    let k = n as usize;
    csc::extend_front(out, &x[..k], added as usize, 0.0);
}
