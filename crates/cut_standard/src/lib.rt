// What both routes write alike, and the standard cut of a whole accepted problem; each output is written by its own function.
#![tactic(auto)]

ghost use Rattle.std.specs.Prelude.{◌≡◌, ◌+◌, ◌*◌, ◌≤◌, length};
ghost use Rattle.layout.specs.General.Lists.{written};
ghost use Rattle.layout.specs.Problems.Problem.{standard};
ghost use Rattle.layout.specs.Rows.Blocks.{standard_rows, block_row_count};
ghost use Rattle.layout.specs.Checks.{Sound};
ghost use Rattle.layout.specs.Calls.Join.{joined_parts};
ghost use Rattle.layout.specs.Calls.Cut.{augmented, objective, HoldsObjective, constrained, constrained_of, HoldsConstrained};
ghost use Rattle.augment_standard.specs.Beside.{h_rows, beside_rows};
ghost use Rattle.augment_standard.specs.Constraints.{constraints};
ghost use Rattle.cut_standard.specs.Cut.{zero_then_parts};
ghost use Rattle.cut_standard.specs.Fits.{extended, ObjectiveFits, ConstrainedFits};

use rows_tables::Table;

// ---- P, q and the exponents, on either route

// Writes P extended by `k` empty columns, q extended by `k` zeros, and the exponents unchanged.
pub fn write_objective(
    n: u32,
    p_starts: &[u32],
    p_rows: &[u32],
    p_values: &[f64],
    q: &[f64],
    alphas: &[f64],
    k: usize,
    p_starts_out: &mut [u32],
    p_rows_out: &mut [u32],
    p_values_out: &mut [f64],
    q_out: &mut [f64],
    alphas_out: &mut [f64],
)
    requires { let o = objective p_starts.now p_rows.now p_values.now q.now alphas.now in
        let out = objective p_starts_out.old p_rows_out.old p_values_out.old q_out.old alphas_out.old in
        ObjectiveFits n k o out }
    ensures { let o = objective p_starts.now p_rows.now p_values.now q.now alphas.now in
        let before = objective p_starts_out.old p_rows_out.old p_values_out.old q_out.old alphas_out.old in
        let after = objective p_starts_out.new p_rows_out.new p_values_out.new q_out.new alphas_out.new in
        HoldsObjective 0 (extended k o) before after }
{
    csc::extend_starts(p_starts_out, n, p_starts, p_rows, p_values, k);
    csc::copy_front(p_rows_out, p_rows);
    csc::copy_front(p_values_out, p_values);
    csc::extend_front(q_out, q, k, 0.0);
    csc::copy_front(alphas_out, alphas);
}

// ---- the standard route

// Writes the row indices of the `k` columns of H over -I to `out`: first those of H from index `k` on, which are then spread over all 2`k` elements.
fn h_rows(m: u32, cones: &[u32], count: u32, words: &[u32], k: usize, out: &mut [u32])
    requires sound { Sound m cones.now count words.now }
    requires k_value { (k ≡ block_row_count (joined_parts cones.now count words.now)) × (m + k ≤ 262144) × (2 * k ≤ length out.old) }
    ensures { out.new ≡ written (h_rows m (standard_rows (joined_parts cones.now count words.now))) out.old }
{
    rows_tables::write_table(Table::HRows, m, cones, count, words, &mut out[k..]);
    augment_standard::spread_rows(out, k, m);
}

// Writes the row indices of A beside the `k` columns of H to `out`.
fn standard_a_rows(
    m: u32,
    cones: &[u32],
    count: u32,
    words: &[u32],
    a_rows: &[u32],
    k: usize,
    out: &mut [u32],
)
    requires sound { Sound m cones.now count words.now }
    requires k_value { (k ≡ block_row_count (joined_parts cones.now count words.now)) × (m + k ≤ 262144) × (length a_rows.now + 2 * k ≤ length out.old) }
    ensures { out.new ≡ written (beside_rows a_rows.now m (standard_rows (joined_parts cones.now count words.now))) out.old }
{
    csc::copy_front(&mut *out, a_rows);
    h_rows(m, cones, count, words, k, &mut out[a_rows.len()..]);
}

// Writes the cone records to `out`: Zero(`m`), then each cone, or its blocks where it is cut.
fn standard_cones(m: u32, cones: &[u32], count: u32, words: &[u32], out: &mut [u32])
    requires sound { Sound m cones.now count words.now }
    requires words_in_bounds { length (zero_then_parts m (joined_parts cones.now count words.now)) ≤ length out.old }
    ensures { out.new ≡ written (zero_then_parts m (joined_parts cones.now count words.now)) out.old }
{
    out[0] = 0;
    out[1] = m;
    out[2] = 0;
    rows_tables::write_table(Table::StandardCones, m, cones, count, words, &mut out[3..]);
}

// Writes A, b and the cones of the standard cut of accepted constraints; `k` is the number of block rows.
pub fn decomp_augment_standard(
    n: u32,
    m: u32,
    a_starts: &[u32],
    a_rows: &[u32],
    a_values: &[f64],
    b: &[f64],
    cones: &[u32],
    count: u32,
    words: &[u32],
    k: usize,
    a_starts_out: &mut [u32],
    a_rows_out: &mut [u32],
    a_values_out: &mut [f64],
    b_out: &mut [f64],
    cones_out: &mut [u32],
)
    requires { let p = constraints n m a_starts.now a_rows.now a_values.now b.now cones.now count words.now in
        let out = constrained a_starts_out.old a_rows_out.old a_values_out.old b_out.old cones_out.old in
        ConstrainedFits standard p k out }
    ensures { let p = constraints n m a_starts.now a_rows.now a_values.now b.now cones.now count words.now in
        let before = constrained a_starts_out.old a_rows_out.old a_values_out.old b_out.old cones_out.old in
        let after = constrained a_starts_out.new a_rows_out.new a_values_out.new b_out.new cones_out.new in
        HoldsConstrained 0 (constrained_of (augmented standard p)) before after }
{
    augment_standard::write_starts(a_starts_out, a_starts, a_values.len() as u32, k);
    standard_a_rows(m, cones, count, words, a_rows, k, a_rows_out);
    augment_standard::write_values(a_values_out, a_values, k);
    csc::extend_front(b_out, b, k, 0.0);
    standard_cones(m, cones, count, words, cones_out);
}
