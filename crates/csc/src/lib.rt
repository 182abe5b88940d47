// Matrices in compressed columns, as in clarabel's algebra/csc/core.rs: checks 2 and 3 of one matrix, runs of repeated rows in its columns,
// and writers that copy and extend its tables.
#![tactic(auto)]

ghost use Rattle.std.specs.Prelude.{◌≡◌, ◌++◌, ◌+◌, ◌≤◌, ◌<◌, ℕ, Bool, true, ◌&&◌, List, [], length, replicate, T, ltb};
ghost use Rattle.std.specs.Fn.{FnReturnsAt};
ghost use Rattle.layout.specs.General.Lists.{all, below, rises, written, never_falls};
ghost use Rattle.layout.specs.Checks.{starts_right, rows_in_order, rows_right, column_rows};
ghost use Rattle.layout.specs.Cuts.Runs.{runs, run_first, run_last, starts_of_runs, run_count};
ghost use Rattle.layout.specs.Cuts.Compact.{extended_p};
ghost use Rattle.layout.specs.Files.FileWords.{unvalued};
ghost use Rattle.csc.specs.Matrix.{matrix, table, ColumnsInside};

// A matrix in compressed columns, as clarabel's CscMatrix: the caller lends its tables.
#[derive(Clone, Copy)]
pub struct CscMatrix<'a> {
    pub starts: &'a [u32],
    pub rows: &'a [u32],
    pub values: &'a [f64],
}

// Checks that no number in `xs` is less than the one before it. The walk goes on after a fall, so that the compiler tests several numbers
// at a time.
fn never_falls(xs: &[u32]) -> bool
    ensures { result ≡ never_falls xs.now }
{
    let mut holds = true;
    for i in 1..xs.len() {
        if xs[i] < xs[i - 1] {
            holds = false;
        }
    }
    holds
}

// Checks that `rows` is strictly increasing.
pub fn rise_strictly(rows: &[u32]) -> bool
    ensures { result ≡ rises rows.now }
{
    for i in 1..rows.len() {
        if rows[i] <= rows[i - 1] {
            return false;
        }
    }
    true
}

// Makes check 2 on a matrix with `n` columns and `entries` values, as clarabel's check_dimensions does (which does not require the first
// start to be 0). The check depends only on how many values there are, so the values are not passed.
pub fn starts_right(n: u32, starts: &[u32], rows: &[u32], entries: usize) -> bool
    ensures { result ≡ starts_right n (matrix starts.now rows.now (unvalued entries)) }
{
    let last = n as usize;
    starts.len() == last + 1
        && starts[0] == 0
        && never_falls(starts)
        && starts[last] as usize == entries
        && rows.len() == entries
}

// Makes check 3 on the row indices of a matrix: they are below `m`, and `ordered` holds of those of each of the `n` columns.
// The matrix has passed check 2; without rows, its columns are not walked.
fn rows_pass<F: Fn(&[u32]) -> bool>(
    m: u32,
    n: u32,
    starts: &[u32],
    rows: &[u32],
    ordered: F,
) -> bool
    requires inside { ColumnsInside n starts.now rows.now }
    requires callable { F.IsAlwaysCallable ordered }
    ensures { (p : List ℕ → Bool) → p [] ≡ true → ((xs : List ℕ) (b : Bool) → FnReturnsAt F.Fn ordered xs b → b ≡ p xs)
        → result ≡ (all (λ r. ltb r m) rows.now && all (λ c. p (column_rows (table starts.now rows.now) c)) (below n)) }
{
    if rows.len() == 0 {
        return true;
    }
    if !utils::all_below(rows, m as usize) {
        return false;
    }
    for c in 0..n as usize {
        let first = starts[c] as usize;
        let end = starts[c + 1] as usize;
        if !ordered(&rows[first..end]) {
            return false;
        }
    }
    true
}

// Makes check 3 on P, the rest of clarabel's check_format: rows are below `m` and strictly increasing in each column.
pub fn rows_right(m: u32, n: u32, starts: &[u32], rows: &[u32]) -> bool
    requires { ColumnsInside n starts.now rows.now }
    ensures { result ≡ rows_right m n (table starts.now rows.now) }
{
    rows_pass(m, n, starts, rows, rise_strictly)
}

// Makes check 3 on A: rows are below `m` and never decrease in a column, where a row may repeat.
pub fn rows_in_order(m: u32, n: u32, starts: &[u32], rows: &[u32]) -> bool
    requires { ColumnsInside n starts.now rows.now }
    ensures { result ≡ rows_in_order m n (table starts.now rows.now) }
{
    rows_pass(m, n, starts, rows, never_falls)
}

// ---- runs: maximal stretches of consecutive entries with the same row

// The indices of the first and last entry of a run.
#[derive(Clone, Copy)]
pub struct Run {
    pub first: usize,
    pub last: usize,
}

// Finds the index of the first entry of the run that contains index `t`.
fn first_place(rows: &[u32], t: usize) -> usize
    requires { t < length rows.now }
    ensures { result ≡ run_first rows.now t }
{
    let mut first = t;
    while first > 0 && rows[first - 1] == rows[first] {
        first -= 1;
    }
    first
}

// Finds the index of the last entry of the run that contains index `t`.
fn last_place(rows: &[u32], t: usize) -> usize
    requires { t < length rows.now }
    ensures { result ≡ run_last rows.now t }
{
    let mut last = t;
    while last + 1 < rows.len() && rows[last + 1] == rows[last] {
        last += 1;
    }
    last
}

// Finds the run, in the rows of one column, that contains index `t`. clarabel's get_row_index returns only its first entry.
pub fn get_row_run(rows: &[u32], t: usize) -> Run
    requires { t < length rows.now }
    ensures { (result.first ≡ run_first rows.now t) × (result.last ≡ run_last rows.now t) }
{
    Run {
        first: first_place(rows, t),
        last: last_place(rows, t),
    }
}

// Counts the runs in the rows of one column.
pub fn count_runs(rows: &[u32]) -> usize
    ensures { result ≡ length (runs rows.now) }
{
    if rows.len() == 0 {
        return 0;
    }
    let mut count = 1;
    for i in 1..rows.len() {
        if rows[i] != rows[i - 1] {
            count += 1;
        }
    }
    count
}

// Counts the runs of all `n` columns.
pub fn count_all_runs(n: u32, starts: &[u32], rows: &[u32]) -> usize
    requires { ColumnsInside n starts.now rows.now × (length rows.now ≤ 262144) }
    ensures { result ≡ run_count n (table starts.now rows.now) }
{
    let mut count = 0;
    for c in 0..n as usize {
        let first = starts[c] as usize;
        let end = starts[c + 1] as usize;
        count += count_runs(&rows[first..end]);
    }
    count
}

// Writes to `out` the column starts of the matrix in which each run of the `n` columns is merged into one entry.
// Returns the number of entries of that matrix.
pub fn write_run_starts(out: &mut [u32], n: u32, starts: &[u32], rows: &[u32]) -> u32
    requires { ColumnsInside n starts.now rows.now × (length rows.now ≤ 262144) × (n < length out.old) }
    ensures value { result ≡ run_count n (table starts.now rows.now) }
    ensures out_after { out.new ≡ written (starts_of_runs n (table starts.now rows.now)) out.old }
{
    let mut count = 0;
    out[0] = 0;
    for c in 0..n as usize {
        let first = starts[c] as usize;
        let end = starts[c + 1] as usize;
        count += count_runs(&rows[first..end]) as u32;
        out[c + 1] = count;
    }
    count
}

// Returns the number of entries of a matrix that passes check 2, which is its last start.
fn nnz(n: u32, starts: &[u32], rows: &[u32], values: &[f64]) -> u32
    requires { T (starts_right n (matrix starts.now rows.now values.now)) }
    ensures { result ≡ length values.now }
{
    starts[n as usize]
}

// Copies `src` to the front of `out`, by a loop: on slices that a caller lends, the slice's own method calls `memmove`, which the archive for C would
// then need from outside.
pub fn copy_front<T: Copy>(out: &mut [T], src: &[T])
    requires { length src.now ≤ length out.old }
    ensures { out.new ≡ written src.now out.old }
{
    for i in 0..src.len() {
        out[i] = src[i];
    }
}

// Sets the first `k` elements of `out` to `v`.
pub fn fill_front<T: Copy>(out: &mut [T], k: usize, v: T)
    requires { k ≤ length out.old }
    ensures { out.new ≡ written (replicate k v) out.old }
{
    for i in 0..k {
        out[i] = v;
    }
}

// Writes `src`, followed by `k` copies of `v`, to the front of `out`.
pub fn extend_front<T: Copy>(out: &mut [T], src: &[T], k: usize, v: T)
    requires { length src.now + k ≤ length out.old }
    ensures { out.new ≡ written (src.now ++ replicate k v) out.old }
{
    copy_front(&mut *out, src);
    fill_front(&mut out[src.len()..], k, v);
}

// Writes the starts of a matrix that passes check 2, extended by `k` empty columns; each of these ends where the last column ends.
pub fn extend_starts(
    out: &mut [u32],
    n: u32,
    starts: &[u32],
    rows: &[u32],
    values: &[f64],
    k: usize,
)
    requires t { T (starts_right n (matrix starts.now rows.now values.now)) }
    requires k_in_bounds { length starts.now + k ≤ length out.old }
    ensures { out.new ≡ written (extended_p k (matrix starts.now rows.now values.now)).starts out.old }
{
    copy_front(&mut *out, starts);
    fill_front(&mut out[starts.len()..], k, nnz(n, starts, rows, values));
}
