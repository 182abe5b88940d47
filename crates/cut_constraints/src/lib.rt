// Writes A, b, the cones and the cone map of a whole problem that a route accepts.
#![tactic(auto)]

ghost use Rattle.std.specs.Prelude.{◌≡◌, ◌≤◌, length};
ghost use Rattle.layout.specs.General.Lists.{written};
ghost use Rattle.layout.specs.Problems.Problem.{compact};
ghost use Rattle.layout.specs.Rows.Blocks.{block_row_count};
ghost use Rattle.layout.specs.Checks.{layout};
ghost use Rattle.layout.specs.Calls.Answers.{route_of};
ghost use Rattle.layout.specs.Calls.Cut.{augmented, constrained, constrained_of, HoldsConstrained};
ghost use Rattle.augment_standard.specs.Constraints.{constraints};
ghost use Rattle.cut_standard.specs.Fits.{ConstrainedFits};

use constants::route;
use rows_tables::Table;

// Writes A, b and the cones of the compact cut of accepted constraints, with `rows` augmented rows and `k` overlaps.
pub fn decomp_augment_compact(
    n: u32,
    m: u32,
    a_starts: &[u32],
    a_rows: &[u32],
    a_values: &[f64],
    b: &[f64],
    cones: &[u32],
    count: u32,
    words: &[u32],
    rows: usize,
    k: usize,
    a_starts_out: &mut [u32],
    a_rows_out: &mut [u32],
    a_values_out: &mut [f64],
    b_out: &mut [f64],
    cones_out: &mut [u32],
)
    requires { let p = constraints n m a_starts.now a_rows.now a_values.now b.now cones.now count words.now in
        let out = constrained a_starts_out.old a_rows_out.old a_values_out.old b_out.old cones_out.old in
        ConstrainedFits compact p k out × (rows ≡ block_row_count (layout p)) }
    ensures { let p = constraints n m a_starts.now a_rows.now a_values.now b.now cones.now count words.now in
        let before = constrained a_starts_out.old a_rows_out.old a_values_out.old b_out.old cones_out.old in
        let after = constrained a_starts_out.new a_rows_out.new a_values_out.new b_out.new cones_out.new in
        HoldsConstrained 0 (constrained_of (augmented compact p)) before after }
{
    let mut none = [0.0; 1];
    cut_compact::write_compact_a(
        n,
        m,
        a_starts,
        a_rows,
        a_values,
        b,
        1,
        b,
        0, // no other right sides
        cones,
        count,
        words,
        rows,
        k,
        a_starts_out,
        a_rows_out,
        a_values_out,
        b_out,
        &mut none,
    );
    rows_tables::write_table(Table::CompactCones, m, cones, count, words, cones_out);
}

// Writes A, b, the cones and the cone map on a route that adds `k` columns, where the blocks have `rows` rows. The standard route has no map.
pub fn write_constraints(
    route: u32,
    n: u32,
    m: u32,
    a_starts: &[u32],
    a_rows: &[u32],
    a_values: &[f64],
    b: &[f64],
    cones: &[u32],
    count: u32,
    words: &[u32],
    rows: usize,
    k: usize,
    a_starts_out: &mut [u32],
    a_rows_out: &mut [u32],
    a_values_out: &mut [f64],
    b_out: &mut [f64],
    cones_out: &mut [u32],
    map_out: &mut [u32],
)
    requires { let p = constraints n m a_starts.now a_rows.now a_values.now b.now cones.now count words.now in
        let out = constrained a_starts_out.old a_rows_out.old a_values_out.old b_out.old cones_out.old in
        ConstrainedFits (route_of route) p k out × (rows ≡ block_row_count (layout p)) × (length (augmented (route_of route) p).map ≤ length map_out.old) }
    ensures { let p = constraints n m a_starts.now a_rows.now a_values.now b.now cones.now count words.now in
        let before = constrained a_starts_out.old a_rows_out.old a_values_out.old b_out.old cones_out.old in
        let after = constrained a_starts_out.new a_rows_out.new a_values_out.new b_out.new cones_out.new in
        let new = augmented (route_of route) p in
        HoldsConstrained 0 (constrained_of new) before after × (map_out.new ≡ written new.map map_out.old) }
{
    if route == route::STANDARD {
        cut_standard::decomp_augment_standard(
            n,
            m,
            a_starts,
            a_rows,
            a_values,
            b,
            cones,
            count,
            words,
            k,
            a_starts_out,
            a_rows_out,
            a_values_out,
            b_out,
            cones_out,
        );
    } else {
        decomp_augment_compact(
            n,
            m,
            a_starts,
            a_rows,
            a_values,
            b,
            cones,
            count,
            words,
            rows,
            k,
            a_starts_out,
            a_rows_out,
            a_values_out,
            b_out,
            cones_out,
        );
        rows_tables::write_table(Table::ConeMap, m, cones, count, words, map_out);
    }
}
