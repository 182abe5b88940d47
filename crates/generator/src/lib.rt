// The generator (Q-5): from a seed, a vertex count `v`, a band `w` and a column count `n`, a test problem that any site can reproduce.
#![tactic(auto)]

ghost use Rattle.std.specs.Prelude.{◌≡◌, true, cond, map, suc, ◌+◌, ◌-◌, ◌*◌, ◌≤◌, ◌<◌, length, take, replicate, T};
ghost use Rattle.layout.specs.General.Lists.{sum, written, Below};
ghost use Rattle.layout.specs.General.Floats.{zero64};
ghost use Rattle.layout.specs.General.Triangle.{triangle};
ghost use Rattle.layout.specs.Problems.Problem.{table_lengths};
ghost use Rattle.layout.specs.Problems.Patterns.{pattern_words_of};
ghost use Rattle.layout.specs.Cuts.Compact.{csc as csc_of, psd_words};
ghost use Rattle.layout.specs.Calls.Answers.{output, roomy};
ghost use Rattle.layout.specs.Calls.Generate.{draws as draws_of, drawn_value, drawn_ordering, band as band_of, band_rows, drawn_columns, after_columns, drawn_side, generated, in_ranges, generate_refusal, Generate};
ghost use Rattle.generator.specs.Lengths.{lengths_of, RoomsOf};
ghost use Rattle.layout.specs.Calls.Tables.{tables};
ghost use Rattle.layout.specs.Calls.GenerateSizes.{GenerateSizes};
ghost use Rattle.constants.specs.Refusals.{refusal_of};

use constants::Refusal;
use generator_columns::ColumnDraw;
use scalarmath::triangular_number;

const PSD_TRIANGLE: u32 = 6;

// The length of the tables in which the entries are kept until they are written.
const KEPT: usize = 8192;

// The number of entries from which on clearing these tables takes less time than a second walk over the draws.
const WORTH_KEEPING: usize = 1024;

// ---- the covered rows

// The number of rows that the band covers, and the state of the random generator after the ordering is drawn.
#[derive(Clone, Copy)]
pub struct RowsDraw {
    pub count: usize,
    pub state: u64,
}

// Draws an ordering of `ordering.len()` vertices into `ordering`, and writes the rows that its band covers to `rows`, sorted. `places`
// is a scratch buffer for the inverse of the ordering. Returns the number of covered rows and the state after the draws.
fn draw_band(
    seed: u64,
    w: u32,
    ordering: &mut [u32],
    places: &mut [u32],
    rows: &mut [u32],
) -> RowsDraw
    requires { (w < length ordering.old) × (length ordering.old ≤ 64) × (length places.old ≡ length ordering.old) × (2080 ≤ length rows.old) }
    ensures state_value { (result.state ≡ draws_of (length ordering.old - 1) seed) × (result.count ≡ length (band_rows (drawn_ordering seed (length ordering.old)) (length ordering.old) w)) }
    ensures rows_after { rows.new ≡ written (band_rows (drawn_ordering seed (length ordering.old)) (length ordering.old) w) rows.old }
{
    let state = generator_draws::draw_ordering(seed, &mut *ordering);
    utils::scatter(&*ordering, &mut *places);
    let count = generator_band::cover_rows(&*places, w, rows);
    RowsDraw { count, state }
}

// Draws an ordering of `v` vertices and writes the rows that its band covers to `rows`, sorted. Returns what `draw_band` returns.
fn draw_rows(seed: u64, v: u32, w: u32, rows: &mut [u32]) -> RowsDraw
    requires { (w < v) × (v ≤ 64) × (2080 ≤ length rows.old) }
    ensures state_value { (result.state ≡ draws_of (v - 1) seed) × (result.count ≡ length (band_rows (drawn_ordering seed v) v w)) }
    ensures rows_after { rows.new ≡ written (band_rows (drawn_ordering seed v) v w) rows.old }
{
    let mut ordering = [0u32; 64];
    let mut places = [0u32; 64];
    let count = v as usize;
    draw_band(seed, w, &mut ordering[..count], &mut places[..count], rows)
}

// ---- A and b

// Draws `n` columns over `rows`, starting from state `s`, and counts their entries.
fn count_columns(s: u64, rows: &[u32], n: u32) -> u32
    requires { (length rows.now ≤ 2080) × (n ≤ 64) }
    ensures { result ≡ sum (map length (drawn_columns s rows.now n)) }
{
    let mut state = s;
    let mut entries = 0;
    for _ in 0..n {
        let d = generator_columns::count_column(state, rows);
        state = d.state;
        entries += d.count as u32;
    }
    entries
}

// Draws `n` columns over `rows`, starting from state `s`, and writes their starts, rows and values. Returns the state after them.
fn write_columns(
    s: u64,
    rows: &[u32],
    n: u32,
    starts_out: &mut [u32],
    rows_out: &mut [u32],
    values_out: &mut [f64],
) -> u64
    requires rows_len_bound { (length rows.now ≤ 2080) × (n ≤ 64) × (n + 1 ≤ length starts_out.old) }
    requires n_in_bounds { (sum (map length (drawn_columns s rows.now n)) ≤ length rows_out.old) × (sum (map length (drawn_columns s rows.now n)) ≤ length values_out.old) }
    ensures value { result ≡ after_columns s rows.now n }
    ensures starts_out_after { starts_out.new ≡ written (csc_of (drawn_columns s rows.now n)).starts starts_out.old }
    ensures rows_out_after { rows_out.new ≡ written (csc_of (drawn_columns s rows.now n)).rows rows_out.old }
    ensures values_out_after { values_out.new ≡ written (csc_of (drawn_columns s rows.now n)).values values_out.old }
{
    starts_out[0] = 0;
    let mut state = s;
    let mut at = 0;
    for c in 0..n as usize {
        let d = generator_columns::write_column(
            state,
            rows,
            &mut rows_out[at..],
            &mut values_out[at..],
        );
        state = d.state;
        at += d.count;
        starts_out[c + 1] = at as u32;
    }
    state
}

// Draws `n` columns over `rows`, starting from state `s`, and writes their starts. It keeps the row of each entry in `kept_rows` and the draw of its
// value in `kept`. Returns the number of entries and the state after them.
fn keep_columns(
    s: u64,
    rows: &[u32],
    n: u32,
    starts: &mut [u32],
    kept_rows: &mut [u32],
    kept: &mut [u64],
) -> ColumnDraw
    requires { (n ≤ 64) × (n * length rows.now < 8192) × (n + 1 ≤ length starts.old) × (8192 ≤ length kept_rows.old) × (8192 ≤ length kept.old) }
    ensures count_value { (result.count ≡ sum (map length (drawn_columns s rows.now n))) × (result.state ≡ after_columns s rows.now n) }
    ensures starts_after { starts.new ≡ written (csc_of (drawn_columns s rows.now n)).starts starts.old }
    ensures kept_rows_after { take result.count kept_rows.new ≡ (csc_of (drawn_columns s rows.now n)).rows }
    ensures kept_after { map drawn_value (take result.count kept.new) ≡ (csc_of (drawn_columns s rows.now n)).values }
{
    starts[0] = 0;
    let mut state = s;
    let mut at = 0;
    for c in 0..n as usize {
        let d = generator_columns::keep_column(state, rows, &mut kept_rows[at..], &mut kept[at..]);
        state = d.state;
        at += d.count;
        starts[c + 1] = at as u32;
    }
    ColumnDraw { count: at, state }
}

// Writes a right side of `m` values: values drawn from state `s` at the `rows`, and +0.0 elsewhere.
fn write_side(s: u64, rows: &[u32], m: usize, out: &mut [f64])
    requires { (m ≤ length out.old) × Below m rows.now }
    ensures { out.new ≡ written (drawn_side s rows.now (replicate m zero64)) out.old }
{
    csc::fill_front(&mut *out, m, 0.0);
    generator_draws::draw_side(s, rows, out);
}

// ---- the sizes

// Counts the entries of A. `rows` is a scratch buffer for the covered rows.
fn count_entries(seed: u64, v: u32, w: u32, n: u32, rows: &mut [u32]) -> u32
    requires { (w < v) × (v ≤ 64) × (n ≤ 64) × (2080 ≤ length rows.old) }
    ensures { result ≡ sum (map length (drawn_columns (draws_of (v - 1) seed) (band_rows (drawn_ordering seed v) v w) n)) }
{
    let d = draw_rows(seed, v, w, &mut *rows);
    count_columns(d.state, &rows[..d.count], n)
}

// Writes the length of each table of the generated problem, whose A has `entries` entries.
fn write_lengths(v: u32, w: u32, n: u32, entries: u32, out: &mut [u32])
    requires { (w < v) × (v ≤ 64) × (n ≤ 64) × (11 ≤ length out.old) }
    ensures { out.new ≡ written (lengths_of v w n entries) out.old }
{
    let starts = n + 1;
    let m = triangular_number(v);
    let words = 3 + v + (v - w) * (w + 4);
    let lengths = [starts, 0, 0, n, starts, entries, entries, m, 3, 0, words];
    csc::copy_front(out, &lengths);
}

// Writes the length of each of the eleven tables of the generated problem to `out`. Refuses arguments out of range, and then
// an `out` that is too short; `out` is then unchanged.
pub fn generate_sizes(seed: u64, v: u32, w: u32, n: u32, out: &mut [u32]) -> Result<(), Refusal>
    ensures { GenerateSizes seed v w n out.old out.new (refusal_of result) }
{
    if !generator_draws::in_ranges(seed, v, w, n) {
        return Err(Refusal::Ranges);
    }
    if out.len() < 11 {
        return Err(Refusal::Short);
    }
    let mut rows = [0u32; 2080];
    let entries = count_entries(seed, v, w, n, &mut rows);
    write_lengths(v, w, n, entries, out);
    Ok(())
}

// ---- the problem

// Makes check 11 on outputs of the lengths in `rooms`, for a problem whose A has `entries` entries.
fn check_outputs(v: u32, w: u32, n: u32, entries: u32, rooms: &[usize]) -> Result<(), Refusal>
    requires { (w < v) × (v ≤ 64) × (n ≤ 64) }
    ensures { refusal_of result ≡ cond (roomy (lengths_of v w n entries) rooms.now) 0 11 }
{
    let mut needs = [0u32; 11];
    write_lengths(v, w, n, entries, &mut needs);
    utils::check_rooms(&needs, rooms)
}

// Draws A and b over `rows`, starting from state `s`, and writes them: first a walk over the draws that counts the entries, then one that writes
// them. `m` is the length of b, and `rooms` has the length of every output. Refuses, with nothing written, if one is too short.
fn write_twice(
    s: u64,
    rows: &[u32],
    v: u32,
    w: u32,
    n: u32,
    m: usize,
    rooms: &[usize],
    starts_out: &mut [u32],
    rows_out: &mut [u32],
    values_out: &mut [f64],
    b_out: &mut [f64],
) -> Result<(), Refusal>
    requires w_lt_v { (w < v) × (v ≤ 64) × (n ≤ 64) × (length rows.now ≤ 2080) × (m ≡ triangle v) × Below m rows.now }
    requires rooms_of { RoomsOf rooms.now (length starts_out.old) (length rows_out.old) (length values_out.old) (length b_out.old) }
    ensures value { refusal_of result ≡ cond (roomy (lengths_of v w n (sum (map length (drawn_columns s rows.now n)))) rooms.now) 0 11 }
    ensures starts_out_after { starts_out.new ≡ output (refusal_of result) (csc_of (drawn_columns s rows.now n)).starts starts_out.old }
    ensures rows_out_after { rows_out.new ≡ output (refusal_of result) (csc_of (drawn_columns s rows.now n)).rows rows_out.old }
    ensures values_out_after { values_out.new ≡ output (refusal_of result) (csc_of (drawn_columns s rows.now n)).values values_out.old }
    ensures b_out_after { b_out.new ≡ output (refusal_of result) (drawn_side (after_columns s rows.now n) rows.now (replicate m zero64)) b_out.old }
{
    let entries = count_columns(s, rows, n);
    check_outputs(v, w, n, entries, rooms)?;
    let after = write_columns(s, rows, n, starts_out, rows_out, values_out);
    write_side(after, rows, m, b_out);
    Ok(())
}

// Does what `write_twice` does, for few entries and with one walk: the entries are kept until the outputs are found to be long enough.
fn write_once(
    s: u64,
    rows: &[u32],
    v: u32,
    w: u32,
    n: u32,
    m: usize,
    rooms: &[usize],
    starts_out: &mut [u32],
    rows_out: &mut [u32],
    values_out: &mut [f64],
    b_out: &mut [f64],
) -> Result<(), Refusal>
    requires w_lt_v { (w < v) × (v ≤ 64) × (n ≤ 64) × (n * length rows.now < 8192) × (m ≡ triangle v) × Below m rows.now }
    requires rooms_of { RoomsOf rooms.now (length starts_out.old) (length rows_out.old) (length values_out.old) (length b_out.old) }
    ensures value { refusal_of result ≡ cond (roomy (lengths_of v w n (sum (map length (drawn_columns s rows.now n)))) rooms.now) 0 11 }
    ensures starts_out_after { starts_out.new ≡ output (refusal_of result) (csc_of (drawn_columns s rows.now n)).starts starts_out.old }
    ensures rows_out_after { rows_out.new ≡ output (refusal_of result) (csc_of (drawn_columns s rows.now n)).rows rows_out.old }
    ensures values_out_after { values_out.new ≡ output (refusal_of result) (csc_of (drawn_columns s rows.now n)).values values_out.old }
    ensures b_out_after { b_out.new ≡ output (refusal_of result) (drawn_side (after_columns s rows.now n) rows.now (replicate m zero64)) b_out.old }
{
    let mut starts = [0u32; 65];
    let mut kept_rows = [0u32; KEPT];
    let mut kept = [0u64; KEPT];
    let d = keep_columns(s, rows, n, &mut starts, &mut kept_rows, &mut kept);
    check_outputs(v, w, n, d.count as u32, rooms)?;
    csc::copy_front(starts_out, &starts[..n as usize + 1]);
    generator_columns::write_kept(
        &kept_rows[..d.count],
        &kept[..d.count],
        rows_out,
        values_out,
    );
    write_side(d.state, rows, m, b_out);
    Ok(())
}

// Returns whether the entries of `n` columns over `rows` rows are kept: they fit, and are enough to make it worthwhile.
fn are_kept(rows: usize, n: u32) -> bool
    requires { (rows ≤ 2080) × (n ≤ 64) }
    ensures { result ≡ true → n * rows < 8192 }
{
    let most = n as usize * rows;
    WORTH_KEEPING <= most && most < KEPT
}

// Writes A and b, drawn over the rows that the band covers. `rooms` has the length of every output, and `rows` is a scratch buffer for these rows.
// Refuses, with nothing written, if an output is too short.
fn write_drawn(
    seed: u64,
    v: u32,
    w: u32,
    n: u32,
    rooms: &[usize],
    rows: &mut [u32],
    a_starts_out: &mut [u32],
    a_rows_out: &mut [u32],
    a_values_out: &mut [f64],
    b_out: &mut [f64],
) -> Result<(), Refusal>
    requires t { T (in_ranges seed v w n) × (2080 ≤ length rows.old) }
    requires rooms_of { RoomsOf rooms.now (length a_starts_out.old) (length a_rows_out.old) (length a_values_out.old) (length b_out.old) }
    ensures value { refusal_of result ≡ cond (roomy (table_lengths (generated seed v w n)) rooms.now) 0 11 }
    ensures a_starts_out_after { a_starts_out.new ≡ output (refusal_of result) (generated seed v w n).A.starts a_starts_out.old }
    ensures a_rows_out_after { a_rows_out.new ≡ output (refusal_of result) (generated seed v w n).A.rows a_rows_out.old }
    ensures a_values_out_after { a_values_out.new ≡ output (refusal_of result) (generated seed v w n).A.values a_values_out.old }
    ensures b_out_after { b_out.new ≡ output (refusal_of result) (generated seed v w n).b b_out.old }
{
    let d = draw_rows(seed, v, w, &mut *rows);
    let m = triangular_number(v);
    if are_kept(d.count, n) {
        return write_once(
            d.state,
            &rows[..d.count],
            v,
            w,
            n,
            m as usize,
            rooms,
            a_starts_out,
            a_rows_out,
            a_values_out,
            b_out,
        );
    }
    write_twice(
        d.state,
        &rows[..d.count],
        v,
        w,
        n,
        m as usize,
        rooms,
        a_starts_out,
        a_rows_out,
        a_values_out,
        b_out,
    )
}

// Writes the record of the single cone, PSD of size `v`.
fn write_cone(v: u32, out: &mut [u32])
    requires { 3 ≤ length out.old }
    ensures { out.new ≡ written (psd_words v) out.old }
{
    let cone = [PSD_TRIANGLE, v, 0];
    csc::copy_front(out, &cone);
}

// Writes the words of the pattern, for as many vertices as `ordering` is long. `ordering` is a scratch buffer.
fn write_pattern(seed: u64, w: u32, ordering: &mut [u32], out: &mut [u32])
    requires { (w < length ordering.old) × (length ordering.old ≤ 64) × (3 + length ordering.old + (length ordering.old - w) * (w + 4) ≤ length out.old) }
    ensures { out.new ≡ written (pattern_words_of (band_of (drawn_ordering seed (length ordering.old)) (length ordering.old) w)) out.old }
{
    generator_draws::draw_ordering(seed, &mut *ordering);
    generator_band::write_words(&*ordering, w, out);
}

// Writes P, which has no entries, and q, which is zero.
fn write_objective(n: u32, p_starts_out: &mut [u32], q_out: &mut [f64])
    requires { (n ≤ 64) × (n + 1 ≤ length p_starts_out.old) × (n ≤ length q_out.old) }
    ensures p_starts_out_after { p_starts_out.new ≡ written (replicate (suc n) 0) p_starts_out.old }
    ensures q_out_after { q_out.new ≡ written (replicate n zero64) q_out.old }
{
    let count = n as usize;
    csc::fill_front(p_starts_out, count + 1, 0);
    csc::fill_front(q_out, count, 0.0);
}

// Writes A and b. `rooms` has the length of every output of `generate`. Refuses what `generate` refuses, with nothing written.
fn write_constraints(
    seed: u64,
    v: u32,
    w: u32,
    n: u32,
    rooms: &[usize],
    a_starts_out: &mut [u32],
    a_rows_out: &mut [u32],
    a_values_out: &mut [f64],
    b_out: &mut [f64],
) -> Result<(), Refusal>
    requires { RoomsOf rooms.now (length a_starts_out.old) (length a_rows_out.old) (length a_values_out.old) (length b_out.old) }
    ensures value { refusal_of result ≡ generate_refusal seed v w n rooms.now }
    ensures a_starts_out_after { a_starts_out.new ≡ output (refusal_of result) (generated seed v w n).A.starts a_starts_out.old }
    ensures a_rows_out_after { a_rows_out.new ≡ output (refusal_of result) (generated seed v w n).A.rows a_rows_out.old }
    ensures a_values_out_after { a_values_out.new ≡ output (refusal_of result) (generated seed v w n).A.values a_values_out.old }
    ensures b_out_after { b_out.new ≡ output (refusal_of result) (generated seed v w n).b b_out.old }
{
    if !generator_draws::in_ranges(seed, v, w, n) {
        return Err(Refusal::Ranges);
    }
    let mut rows = [0u32; 2080];
    write_drawn(
        seed,
        v,
        w,
        n,
        rooms,
        &mut rows,
        a_starts_out,
        a_rows_out,
        a_values_out,
        b_out,
    )
}

// Writes the cone's record and the words of its pattern.
fn write_layout(seed: u64, v: u32, w: u32, cones_out: &mut [u32], words_out: &mut [u32])
    requires { (w < v) × (v ≤ 64) × (3 ≤ length cones_out.old) × (3 + v + (v - w) * (w + 4) ≤ length words_out.old) }
    ensures cones_out_after { cones_out.new ≡ written (psd_words v) cones_out.old }
    ensures words_out_after { words_out.new ≡ written (pattern_words_of (band_of (drawn_ordering seed v) v w)) words_out.old }
{
    let mut ordering = [0u32; 64];
    write_cone(v, cones_out);
    write_pattern(seed, w, &mut ordering[..v as usize], words_out);
}

// Writes each table of the generated problem to the front of its output. Refuses arguments out of range, and then an output that is
// too short; all outputs are then unchanged.
pub fn generate(
    seed: u64,
    v: u32,
    w: u32,
    n: u32,
    p_starts_out: &mut [u32],
    p_rows_out: &mut [u32],
    p_values_out: &mut [f64],
    q_out: &mut [f64],
    a_starts_out: &mut [u32],
    a_rows_out: &mut [u32],
    a_values_out: &mut [f64],
    b_out: &mut [f64],
    cones_out: &mut [u32],
    alphas_out: &mut [f64],
    pattern_words_out: &mut [u32],
) -> Result<(), Refusal>
    ensures { let before = tables p_starts_out.old p_rows_out.old p_values_out.old q_out.old a_starts_out.old a_rows_out.old a_values_out.old b_out.old cones_out.old alphas_out.old pattern_words_out.old in
        let after = tables p_starts_out.new p_rows_out.new p_values_out.new q_out.new a_starts_out.new a_rows_out.new a_values_out.new b_out.new cones_out.new alphas_out.new pattern_words_out.new in
        Generate seed v w n before after (refusal_of result) }
{
    let rooms = [
        p_starts_out.len(),
        p_rows_out.len(),
        p_values_out.len(),
        q_out.len(),
        a_starts_out.len(),
        a_rows_out.len(),
        a_values_out.len(),
        b_out.len(),
        cones_out.len(),
        alphas_out.len(),
        pattern_words_out.len(),
    ];
    write_constraints(
        seed,
        v,
        w,
        n,
        &rooms,
        a_starts_out,
        a_rows_out,
        a_values_out,
        b_out,
    )?;
    write_objective(n, p_starts_out, q_out);
    write_layout(seed, v, w, cones_out, pattern_words_out);
    Ok(())
}
