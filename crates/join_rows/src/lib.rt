// Joins the s and z of a solution, on either route: the cones are walked in order, and the rows of each cone are joined on their own.
#![tactic(auto)]

ghost use Rattle.std.specs.Prelude.{◌≡◌, not, ◌&&◌, ◌||◌, ◌≤◌, length, take, leb, ltb};
ghost use Rattle.layout.specs.General.Lists.{written};
ghost use Rattle.layout.specs.Calls.Join.{joined_parts};
ghost use Rattle.reverse_standard.specs.Routes.{Starts};
ghost use Rattle.join_rows.specs.Joined.{Joinable, joined_of, route_if, first_of, block_sizes};
ghost use Rattle.join_rows.specs.Counts.{side_few, sides_few, CountsCones};

use join_cones::{cone_rows, join_cut, join_whole};
use reverse_standard::block_start;
use supportedcone::SupportedCone;
use walk_cones::{Met, Place};

// Copies the first `n` values of `x` to `out`.
pub fn copy_x(n: u32, x: &[f64], out: &mut [f64])
    requires { (n ≤ length x.now) × (n ≤ length out.old) }
    ensures { out.new ≡ written (take n x.now) out.old }
{
    let k = n as usize;
    csc::copy_front(out, &x[..k]);
}

// ---- all cones

// Returns the index of the first cone's values in s and z: on the standard route the `m` values of the Zero cone come first.
fn first_value(standard: bool, m: u32) -> usize
    ensures { result ≡ first_of standard m }
{
    if standard { m as usize } else { 0 }
}

// Joins `s` and `z` on a route and writes them to `s_out` and `z_out`. The compact route reads the first row of each block from `map`. The scratch buffers
// are made once for all patterns.
fn join_parts(
    standard: bool,
    m: u32,
    cones: &[u32],
    count: u32,
    words: &[u32],
    map: &[u32],
    s: &[f64],
    z: &[f64],
    s_out: &mut [f64],
    z_out: &mut [f64],
    counts: &mut [u32],
)
    requires joinable { Joinable (route_if standard) m cones.now count words.now s.now z.now }
    requires m_in_bounds { (m ≤ length s_out.old) × (m ≤ length z_out.old) × CountsCones standard m cones.now counts.old }
    requires starts { Starts standard map.now 0 (first_of standard m) (block_sizes (joined_parts cones.now count words.now)) }
    ensures s_out_after { s_out.new ≡ written (joined_of (route_if standard) m cones.now count words.now s.now z.now).s s_out.old }
    ensures z_out_after { z_out.new ≡ written (joined_of (route_if standard) m cones.now count words.now s.now z.now).z z_out.old }
{
    let mut offsets = [0usize; 256];
    let mut vertices = [0u32; 256];
    let mut place = Place::start(m, cones, count, words);
    let mut row = 0usize;
    let mut t = first_value(standard, m);
    let mut entry = 0usize;
    loop {
        match place.next(m, cones, words) {
            Some(Met::Whole(rows, next)) => {
                let n = rows as usize;
                let start = block_start(standard, t, map, entry);
                join_whole(standard, n, row, start, s, &mut *s_out);
                join_whole(standard, n, row, start, z, &mut *z_out);
                row += n;
                t = start + n;
                entry += 1;
                place = next;
            }
            Some(Met::Cut(at, next)) => {
                let n = cone_rows(words, at);
                t = join_cut(
                    standard,
                    words,
                    at,
                    n,
                    row,
                    map,
                    entry,
                    t,
                    s,
                    z,
                    &mut *s_out,
                    &mut *z_out,
                    &mut *counts,
                    &mut offsets,
                    &mut vertices,
                );
                row += n;
                entry += walk_cones::clique_count(words, at) as usize;
                place = next;
            }
            None => {
                break;
            }
        }
    }
}

// ---- the length of the table of counts on the standard route

// Returns whether a cone with this `kind` and `side` has at most 4,095 rows, if a pattern decomposes it.
fn side_few(kind: u32, side: u32) -> bool
    ensures { result ≡ side_few kind side }
{
    kind != SupportedCone::PSD_TRIANGLE || side <= 90
}

// Returns whether this holds of each cone.
fn sides_few(cones: &[u32]) -> bool
    ensures { result ≡ sides_few cones.now }
{
    for i in 0..supportedcone::record_count(cones) {
        let at = i * 3;
        if !side_few(cones[at], cones[at + 1]) {
            return false;
        }
    }
    true
}

// Returns whether 4,096 counts are enough for each cone.
fn rows_few(m: u32, cones: &[u32]) -> bool
    ensures { result ≡ (leb m 4096 || sides_few cones.now) }
{
    m <= 4096 || sides_few(cones)
}

// Returns whether 256 counts are enough: the compact route counts nothing.
fn counts_few(standard: bool, m: u32) -> bool
    ensures { result ≡ (not standard || leb m 256) }
{
    !standard || m <= 256
}

// Returns whether the route is standard with more than 4,096 rows.
fn many_rows(standard: bool, m: u32) -> bool
    ensures { result ≡ (standard && ltb 4096 m) }
{
    standard && 4096 < m
}

// ---- s and z

// Joins `s` and `z` with a table of counts for cones of any size. It is a function of its own so that the compact route and small problems do not pay for a
// stack frame with these tables: called from two places, and not trivial, it is not inlined by the compiler.
fn with_more_counts(
    standard: bool,
    m: u32,
    cones: &[u32],
    count: u32,
    words: &[u32],
    map: &[u32],
    s: &[f64],
    z: &[f64],
    s_out: &mut [f64],
    z_out: &mut [f64],
)
    requires joinable { Joinable (route_if standard) m cones.now count words.now s.now z.now }
    requires m_in_bounds { (m ≤ length s_out.old) × (m ≤ length z_out.old) }
    requires starts { Starts standard map.now 0 (first_of standard m) (block_sizes (joined_parts cones.now count words.now)) }
    ensures s_out_after { s_out.new ≡ written (joined_of (route_if standard) m cones.now count words.now s.now z.now).s s_out.old }
    ensures z_out_after { z_out.new ≡ written (joined_of (route_if standard) m cones.now count words.now s.now z.now).z z_out.old }
{
    if rows_few(m, cones) {
        let mut counts = [0u32; 4096];
        join_parts(
            standard,
            m,
            cones,
            count,
            words,
            map,
            s,
            z,
            s_out,
            z_out,
            &mut counts,
        );
        return;
    }
    let mut counts = [0u32; 32896];
    join_parts(
        standard,
        m,
        cones,
        count,
        words,
        map,
        s,
        z,
        s_out,
        z_out,
        &mut counts,
    );
}

// Joins `s` and `z` of a solution and writes them to `s_out` and `z_out`, as clarabel's `decomp_reverse_standard` and `decomp_reverse_compact` do.
// The table of counts is as short as the cones allow, since clearing it takes time.
pub fn decomp_reverse(
    standard: bool,
    m: u32,
    cones: &[u32],
    count: u32,
    words: &[u32],
    map: &[u32],
    s: &[f64],
    z: &[f64],
    s_out: &mut [f64],
    z_out: &mut [f64],
)
    requires joinable { Joinable (route_if standard) m cones.now count words.now s.now z.now }
    requires m_in_bounds { (m ≤ length s_out.old) × (m ≤ length z_out.old) }
    requires starts { Starts standard map.now 0 (first_of standard m) (block_sizes (joined_parts cones.now count words.now)) }
    ensures s_out_after { s_out.new ≡ written (joined_of (route_if standard) m cones.now count words.now s.now z.now).s s_out.old }
    ensures z_out_after { z_out.new ≡ written (joined_of (route_if standard) m cones.now count words.now s.now z.now).z z_out.old }
{
    if many_rows(standard, m) {
        with_more_counts(standard, m, cones, count, words, map, s, z, s_out, z_out);
        return;
    }
    if !counts_few(standard, m) {
        with_more_counts(standard, m, cones, count, words, map, s, z, s_out, z_out);
        return;
    }
    let mut counts = [0u32; 256];
    join_parts(
        standard,
        m,
        cones,
        count,
        words,
        map,
        s,
        z,
        s_out,
        z_out,
        &mut counts,
    );
}
