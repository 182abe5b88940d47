// Writes the compact cut's A. `codes` describes each augmented row: a code below 65,536 is the original row that moves there; a larger one is
// 65,536 plus the parent block's row of an overlap. A run of repeats in A becomes one entry, so column starts are taken from `run_starts`.
// Where a column was sorted by marks, the columns after it with the same rows are in the same order: they are written by the same marks.
#![tactic(auto)]

ghost use Rattle.std.specs.Prelude.{◌≡◌, map, ◌++◌, suc, ◌+◌, ◌-◌, ◌*◌, ◌≤◌, ◌<◌, length, get_or, take, T};
ghost use Rattle.layout.specs.General.Lists.{written, part, same_numbers, never_falls};
ghost use Rattle.layout.specs.General.Floats.{one64, minus_one64};
ghost use Rattle.layout.specs.Checks.{starts_right};
ghost use Rattle.layout.specs.Cuts.Compact.{csc};
ghost use Rattle.layout.specs.Cuts.Runs.{runs, sums, starts_of_runs, run_count};
ghost use Rattle.rows_codes.specs.Codes.{RowsInside};
ghost use Rattle.csc.specs.Matrix.{matrix, table, ColumnsInside};
ghost use Rattle.augment_standard.specs.Beside.{pair_values, beside_starts};
ghost use Rattle.augment_compact.specs.Cut.{coded_columns, tied_rows, cut_rows, cut_values, Behind};
ghost use Rattle.augment_compact.specs.Places.{row_table, ColumnsInOrder, RunsStart};
ghost use Rattle.augment_compact.specs.Groups.{unmarked, Marking, RowsGrow, ValuesGrow};
ghost use Rattle.cut_gather.specs.Gathered.{MarksInside, summed_value};
ghost use Rattle.cut_columns.specs.Marks.{Placing, Clear, marked_below};

use constants::scratch;
use rows_codes::FIRST_OVERLAP;

// Writes to `place`, at each original row that moves, the augmented row it moves to.
pub fn write_place(place: &mut [u32], codes: &[u32])
    requires { RowsInside (length place.old) codes.now × (length codes.now ≤ 262144) }
    ensures { place.new ≡ row_table 0 codes.now place.old }
{
    for (r, &c) in codes.iter().enumerate() {
        if (c as usize) < scratch::ROWS {
            place[c as usize] = r as u32;
        }
    }
}

// Writes the starts of the cut's columns: the `n` columns of A, with one entry for each run, and the `k` overlap columns, with two entries each.
pub fn write_starts(out: &mut [u32], n: u32, starts: &[u32], rows: &[u32], k: usize)
    requires columns_inside { ColumnsInside n starts.now rows.now × (length starts.now ≡ suc n) × (length rows.now ≤ 262144) }
    requires k_in_bounds { (suc n + k ≤ length out.old) × (k ≤ 262144) }
    ensures { let M = table starts.now rows.now in out.new ≡ written (beside_starts (starts_of_runs n M) (run_count n M) k) out.old }
{
    let entries = csc::write_run_starts(&mut *out, n, starts, rows);
    augment_standard::write_h_starts(&mut out[starts.len()..], entries, k);
}

// Writes a column with the rows of an earlier one, whose `count` output rows start at `from` and whose marks are in `codes`: the same output rows at
// `start`, and for each of them the value that moves there.
fn repeat_column(
    rows_out: &mut [u32],
    values_out: &mut [f64],
    codes: &[u32],
    rows: &[u32],
    values: &[f64],
    from: usize,
    start: usize,
    count: usize,
)
    requires marks_inside { MarksInside codes.now (length rows.now) (part from (from + count) rows_out.old) × (length values.now ≡ length rows.now) }
    requires t { T (never_falls rows.now) × (count ≡ length (runs rows.now)) }
    requires count_bound { (from + count ≤ start) × (start + count ≤ length rows_out.old) × (start + count ≤ length values_out.old) }
    ensures rows_out_after { rows_out.new ≡ written (take start rows_out.old ++ part from (from + count) rows_out.old) rows_out.old }
    ensures values_out_after { values_out.new ≡ written (take start values_out.old ++ map (summed_value codes.now rows.now values.now) (part from (from + count) rows_out.old)) values_out.old }
{
    let end = from + count;
    let stop = start + count;
    rows_out.copy_within(from..end, start);
    cut_columns::gather_column(
        &mut values_out[start..stop],
        codes,
        &rows_out[from..end],
        rows,
        values,
    );
}

// Returns whether columns `c` and `d` have the same rows.
fn same_rows(starts: &[u32], rows: &[u32], c: usize, d: usize) -> bool
    requires c_in_bounds { (c + 1 < length starts.now) × (get_or starts.now c 0 ≤ get_or starts.now (c + 1) 0) × (get_or starts.now (c + 1) 0 ≤ length rows.now) }
    requires d_in_bounds { (d + 1 < length starts.now) × (get_or starts.now d 0 ≤ get_or starts.now (d + 1) 0) × (get_or starts.now (d + 1) 0 ≤ length rows.now) }
    ensures { result ≡ same_numbers (part (get_or starts.now c 0) (get_or starts.now (c + 1) 0) rows.now) (part (get_or starts.now d 0) (get_or starts.now (d + 1) 0) rows.now) }
{
    let first = starts[c] as usize;
    let end = starts[c + 1] as usize;
    let first2 = starts[d] as usize;
    let end2 = starts[d + 1] as usize;
    same_tables::same_numbers(&rows[first..end], &rows[first2..end2])
}

// Writes the columns after column `c`, up to the first with other rows, by the marks of column `c` in `codes`; `place` tells where its rows moved.
// Returns the first column that is not written.
fn write_followers(
    rows_out: &mut [u32],
    values_out: &mut [f64],
    codes: &[u32],
    place: &[u32],
    n: u32,
    starts: &[u32],
    rows: &[u32],
    values: &[f64],
    run_starts: &[u32],
    c: usize,
) -> usize
    requires fact { let M = matrix starts.now rows.now values.now in T (starts_right n M) × ColumnsInOrder n M × RunsStart n M run_starts.now }
    requires fact_2 { let M = matrix starts.now rows.now values.now in (c < n) × Marking M place.now c (unmarked M place.now c codes.now) codes.now }
    requires fact_3 { let M = matrix starts.now rows.now values.now in (run_count n M ≤ length rows_out.old) × (run_count n M ≤ length values_out.old) }
    requires rows_out_value { part (get_or run_starts.now c 0) (get_or run_starts.now (c + 1) 0) rows_out.old ≡ marked_below codes.now (length codes.now) }
    ensures lower_bound { (c < result) × (result ≤ n) }
    ensures fact_4 { let M = matrix starts.now rows.now values.now in RowsGrow n M (unmarked M place.now c codes.now) (c + 1) result rows_out.old rows_out.new }
    ensures fact_5 { let M = matrix starts.now rows.now values.now in ValuesGrow n M (unmarked M place.now c codes.now) (c + 1) result values_out.old values_out.new }
{
    let columns = n as usize;
    let from = run_starts[c] as usize;
    let count = run_starts[c + 1] as usize - from;
    for d in c + 1..columns {
        if !same_rows(starts, rows, c, d) {
            return d;
        }
        let first = starts[d] as usize;
        let end = starts[d + 1] as usize;
        let start = run_starts[d] as usize;
        repeat_column(
            &mut *rows_out,
            &mut *values_out,
            codes,
            &rows[first..end],
            &values[first..end],
            from,
            start,
            count,
        );
    }
    columns
}

// Writes column `c` of A over the augmented rows and, where it was sorted by marks, the columns after it with the same rows. `codes` and the flags in
// `chunks` are changed on the way and restored. Returns the first column that is not written.
fn write_group(
    rows_out: &mut [u32],
    values_out: &mut [f64],
    codes: &mut [u32],
    chunks: &mut [bool],
    place: &[u32],
    n: u32,
    starts: &[u32],
    rows: &[u32],
    values: &[f64],
    run_starts: &[u32],
    c: usize,
) -> usize
    requires fact { let M = matrix starts.now rows.now values.now in T (starts_right n M) × ColumnsInOrder n M × RunsStart n M run_starts.now }
    requires placing { Placing codes.old place.now rows.now × Clear (length codes.old) chunks.old × (c < n) }
    requires fact_2 { let M = matrix starts.now rows.now values.now in (run_count n M ≤ length rows_out.old) × (run_count n M ≤ length values_out.old) }
    ensures lower_bound { (c < result) × (result ≤ n) }
    ensures fact_3 { let M = matrix starts.now rows.now values.now in RowsGrow n M codes.old c result rows_out.old rows_out.new }
    ensures fact_4 { let M = matrix starts.now rows.now values.now in ValuesGrow n M codes.old c result values_out.old values_out.new }
    ensures codes_unchanged { codes.new ≡ codes.old }
    ensures chunks_unchanged { chunks.new ≡ chunks.old }
{
    let first = starts[c] as usize;
    let end = starts[c + 1] as usize;
    let start = run_starts[c] as usize;
    let stop = run_starts[c + 1] as usize;
    let marked = cut_columns::move_column(
        &mut *rows_out,
        &mut *values_out,
        &mut *codes,
        chunks,
        place,
        rows,
        values,
        first,
        end,
        start,
        stop,
    );
    if !marked {
        return c + 1;
    }
    let d = write_followers(
        rows_out, values_out, &*codes, place, n, starts, rows, values, run_starts, c,
    );
    cut_columns::put_back(codes, place, &rows[first..end]);
    d
}

// Writes the `n` columns of A over the augmented rows, with one entry for each run. `codes` and the flags in `chunks` are changed on the way
// and restored.
pub fn write_columns(
    rows_out: &mut [u32],
    values_out: &mut [f64],
    codes: &mut [u32],
    chunks: &mut [bool],
    place: &[u32],
    n: u32,
    starts: &[u32],
    rows: &[u32],
    values: &[f64],
    run_starts: &[u32],
)
    requires fact { let M = matrix starts.now rows.now values.now in T (starts_right n M) × ColumnsInOrder n M × RunsStart n M run_starts.now }
    requires placing { Placing codes.old place.now rows.now × Clear (length codes.old) chunks.old }
    requires fact_2 { let M = matrix starts.now rows.now values.now in (run_count n M ≤ length rows_out.old) × (run_count n M ≤ length values_out.old) }
    ensures rows_out_after { rows_out.new ≡ written (csc (coded_columns n (sums n (matrix starts.now rows.now values.now)) codes.old)).rows rows_out.old }
    ensures values_out_after { values_out.new ≡ written (csc (coded_columns n (sums n (matrix starts.now rows.now values.now)) codes.old)).values values_out.old }
    ensures codes_unchanged { codes.new ≡ codes.old }
    ensures chunks_unchanged { chunks.new ≡ chunks.old }
{
    let count = n as usize;
    let mut c = 0;
    while c < count {
        c = write_group(
            &mut *rows_out,
            &mut *values_out,
            &mut *codes,
            &mut *chunks,
            place,
            n,
            starts,
            rows,
            values,
            run_starts,
            c,
        );
    }
}

// Writes the rows of the overlap columns: for each overlap the parent block's row, then its own row.
pub fn write_overlap_rows(out: &mut [u32], codes: &[u32])
    requires { (length (tied_rows 0 codes.now) ≤ length out.old) × (length codes.now ≤ 262144) }
    ensures { out.new ≡ written (tied_rows 0 codes.now) out.old }
{
    let mut w = 0;
    for (r, &c) in codes.iter().enumerate() {
        if c >= FIRST_OVERLAP {
            out[w] = c - FIRST_OVERLAP;
            out[w + 1] = r as u32;
            w += 2;
        }
    }
}

// Writes the `k` overlap columns, with values -1 and 1 in each, after the `count` entries of A's columns.
fn write_overlaps(
    rows_out: &mut [u32],
    values_out: &mut [f64],
    codes: &[u32],
    count: usize,
    k: usize,
)
    requires { (count + length (tied_rows 0 codes.now) ≤ length rows_out.old) × (count + 2 * k ≤ length values_out.old) × (length codes.now ≤ 262144) }
    ensures behind { Behind count (tied_rows 0 codes.now) rows_out.old rows_out.new }
    ensures behind_2 { Behind count (pair_values minus_one64 one64 k) values_out.old values_out.new }
{
    write_overlap_rows(&mut rows_out[count..], codes);
    augment_standard::write_pairs(&mut values_out[count..], k, -1.0, 1.0);
}

// Writes the rows and values of the compact cut's A: the moved columns of A, then `k` overlap columns with values -1 and 1.
// `place` is a scratch buffer that is overwritten; `codes` and the flags in `chunks` are changed on the way and restored.
pub fn write_entries(
    rows_out: &mut [u32],
    values_out: &mut [f64],
    codes: &mut [u32],
    place: &mut [u32],
    chunks: &mut [bool],
    n: u32,
    starts: &[u32],
    rows: &[u32],
    values: &[f64],
    run_starts: &[u32],
    k: usize,
)
    requires fact { let M = matrix starts.now rows.now values.now in T (starts_right n M) × ColumnsInOrder n M × RunsStart n M run_starts.now }
    requires rows_inside { RowsInside (length place.old) codes.old × Placing codes.old (row_table 0 codes.old place.old) rows.now × Clear (length codes.old) chunks.old }
    requires fact_2 { let M = matrix starts.now rows.now values.now in (run_count n M + length (tied_rows 0 codes.old) ≤ length rows_out.old) × (run_count n M + 2 * k ≤ length values_out.old) }
    ensures rows_out_after { rows_out.new ≡ written (cut_rows n (sums n (matrix starts.now rows.now values.now)) codes.old) rows_out.old }
    ensures values_out_after { values_out.new ≡ written (cut_values n (sums n (matrix starts.now rows.now values.now)) codes.old k) values_out.old }
    ensures codes_unchanged { codes.new ≡ codes.old }
    ensures place_after { place.new ≡ row_table 0 codes.old place.old }
    ensures chunks_unchanged { chunks.new ≡ chunks.old }
{
    write_place(&mut *place, &*codes);
    write_columns(
        &mut *rows_out,
        &mut *values_out,
        &mut *codes,
        chunks,
        &*place,
        n,
        starts,
        rows,
        values,
        run_starts,
    );
    let count = run_starts[n as usize] as usize;
    write_overlaps(rows_out, values_out, &*codes, count, k);
}
