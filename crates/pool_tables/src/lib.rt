// Writes the tables of a pool of two problems: A stacked over A, b over b, then cones, α and patterns in turn; P is copied from the first.
#![tactic(auto)]

ghost use Rattle.std.specs.Prelude.{◌≡◌, true, ◌++◌, suc, ◌+◌, ◌≤◌, ◌<◌, length, take};
ghost use Rattle.layout.specs.General.Lists.{part, written};
ghost use Rattle.layout.specs.Problems.Cones.{records};
ghost use Rattle.layout.specs.Problems.Patterns.{read_patterns, ends_right, patterns};
ghost use Rattle.layout.specs.Calls.Pool.{raised_words};
ghost use Rattle.pool_tables.specs.Stacked.{StartsOf, raised, Raisable, OriginsRaisable, start_sums, SumsFit, stacked, StackFits, HoldsStack};
ghost use Rattle.layout.specs.Problems.Problem.{system};

// ---- one list followed by another

// Writes `xs` followed by `ys` to the front of `out`.
pub fn append<T: Copy>(xs: &[T], ys: &[T], out: &mut [T])
    requires { length xs.now + length ys.now ≤ length out.old }
    ensures { out.new ≡ written (xs.now ++ ys.now) out.old }
{
    csc::copy_front(&mut *out, xs);
    csc::copy_front(&mut out[xs.len()..], ys);
}

// Writes each number of `src` plus `k` to the front of `out`.
fn raise_numbers(src: &[u32], k: u32, out: &mut [u32])
    requires src_in_bounds { length src.now ≤ length out.old }
    requires raisable { Raisable k src.now }
    ensures { out.new ≡ written (raised k src.now) out.old }
{
    for (i, &x) in src.iter().enumerate() {
        out[i] = k + x;
    }
}

// Writes `xs`, followed by each number of `ys` plus `k`, to the front of `out`.
fn append_raised(xs: &[u32], ys: &[u32], k: u32, out: &mut [u32])
    requires ys_in_bounds { length xs.now + length ys.now ≤ length out.old }
    requires raisable { Raisable k ys.now }
    ensures { out.new ≡ written (xs.now ++ raised k ys.now) out.old }
{
    csc::copy_front(&mut *out, xs);
    raise_numbers(ys, k, &mut out[xs.len()..]);
}

// ---- matrices stacked one over the other

// Writes the column starts of two stacked matrices of `n` columns: each start is the sum of the two matrices' starts.
fn stack_starts(n: u32, starts: &[u32], starts2: &[u32], out: &mut [u32])
    requires starts_len { (length starts.now ≡ suc n) × (length starts2.now ≡ suc n) × (suc n ≤ length out.old) }
    requires sums_fit { SumsFit n starts.now starts2.now }
    ensures { out.new ≡ written (start_sums n starts.now starts2.now) out.old }
{
    for c in 0..starts.len() {
        out[c] = starts[c] + starts2[c];
    }
}

// Writes the rows of the first matrix from `first` to before `end`, then those of the second from `first2` to before `end2`, raised by `m`, to `out`
// after its first `first + first2` numbers.
fn put_rows(
    m: u32,
    rows: &[u32],
    first: usize,
    end: usize,
    rows2: &[u32],
    first2: usize,
    end2: usize,
    out: &mut [u32],
)
    requires first_le_end { (first ≤ end) × (end ≤ length rows.now) × (first2 ≤ end2) × (end2 ≤ length rows2.now) × (end + end2 ≤ length out.old) }
    requires raisable { Raisable m rows2.now }
    ensures { out.new ≡ written (take (first + first2) out.old ++ (part first end rows.now ++ part first2 end2 (raised m rows2.now))) out.old }
{
    append_raised(
        &rows[first..end],
        &rows2[first2..end2],
        m,
        &mut out[first + first2..],
    );
}

// Writes the rows of two stacked matrices of `n` columns, where the rows of the second matrix are raised by `m`. What is left of the first matrix
// after the second one's last entry is copied as one part.
fn stack_rows(
    n: u32,
    m: u32,
    starts: &[u32],
    rows: &[u32],
    starts2: &[u32],
    rows2: &[u32],
    out: &mut [u32],
)
    requires starts_of { StartsOf n (length rows.now) starts.now × StartsOf n (length rows2.now) starts2.now }
    requires raisable { Raisable m rows2.now }
    requires rows2_in_bounds { length rows.now + length rows2.now ≤ length out.old }
    ensures { out.new ≡ written (stacked n starts.now rows.now starts2.now (raised m rows2.now)) out.old }
{
    let count = n as usize;
    let last = starts2[count] as usize;
    let mut first = 0;
    let mut first2 = 0;
    let mut c = 0;
    while first2 < last {
        let end = starts[c + 1] as usize;
        let end2 = starts2[c + 1] as usize;
        put_rows(m, rows, first, end, rows2, first2, end2, out);
        first = end;
        first2 = end2;
        c += 1;
    }
    let end = starts[count] as usize;
    put_rows(m, rows, first, end, rows2, first2, last, out);
}

// Writes the values of the first matrix from `first` to before `end`, then those of the second from `first2` to before `end2`, to `out` after its
// first `first + first2` values.
fn put_values(
    values: &[f64],
    first: usize,
    end: usize,
    values2: &[f64],
    first2: usize,
    end2: usize,
    out: &mut [f64],
)
    requires { (first ≤ end) × (end ≤ length values.now) × (first2 ≤ end2) × (end2 ≤ length values2.now) × (end + end2 ≤ length out.old) }
    ensures { out.new ≡ written (take (first + first2) out.old ++ (part first end values.now ++ part first2 end2 values2.now)) out.old }
{
    append(
        &values[first..end],
        &values2[first2..end2],
        &mut out[first + first2..],
    );
}

// Writes the values of two stacked matrices of `n` columns, in the order in which `stack_rows` writes their rows.
fn stack_values(
    n: u32,
    starts: &[u32],
    values: &[f64],
    starts2: &[u32],
    values2: &[f64],
    out: &mut [f64],
)
    requires starts_of { StartsOf n (length values.now) starts.now × StartsOf n (length values2.now) starts2.now }
    requires values2_in_bounds { length values.now + length values2.now ≤ length out.old }
    ensures { out.new ≡ written (stacked n starts.now values.now starts2.now values2.now) out.old }
{
    let count = n as usize;
    let last = starts2[count] as usize;
    let mut first = 0;
    let mut first2 = 0;
    let mut c = 0;
    while first2 < last {
        let end = starts[c + 1] as usize;
        let end2 = starts2[c + 1] as usize;
        put_values(values, first, end, values2, first2, end2, out);
        first = end;
        first2 = end2;
        c += 1;
    }
    let end = starts[count] as usize;
    put_values(values, first, end, values2, first2, last, out);
}

// ---- patterns

// Writes the words of `count` patterns with `k` added to each orig_index, which is the first word of a pattern.
fn raise_words(k: u32, count: u32, words: &[u32], out: &mut [u32])
    requires words_value { ends_right (read_patterns count words.now) ≡ true }
    requires origins_raisable { OriginsRaisable k (patterns count words.now) }
    requires words_in_bounds { length words.now ≤ length out.old }
    ensures { out.new ≡ written (raised_words k (patterns count words.now)) out.old }
{
    csc::copy_front(&mut *out, words);
    let mut at = 0;
    for _ in 0..count {
        out[at] = k + words[at];
        at = supernode_tree::pattern_next(words, at);
    }
}

// ---- the tables

// Copies the three tables of a matrix to the fronts of the outputs.
pub fn copy_matrix(
    starts: &[u32],
    rows: &[u32],
    values: &[f64],
    starts_out: &mut [u32],
    rows_out: &mut [u32],
    values_out: &mut [f64],
)
    requires { (length starts.now ≤ length starts_out.old) × (length rows.now ≤ length rows_out.old) × (length values.now ≤ length values_out.old) }
    ensures starts_out_after { starts_out.new ≡ written starts.now starts_out.old }
    ensures rows_out_after { rows_out.new ≡ written rows.now rows_out.old }
    ensures values_out_after { values_out.new ≡ written values.now values_out.old }
{
    csc::copy_front(starts_out, starts);
    csc::copy_front(rows_out, rows);
    csc::copy_front(values_out, values);
}

// Writes the first problem's A stacked over the second's, and b followed by `b2`. `m` is the first problem's row count.
pub fn write_constraints(
    n: u32,
    m: u32,
    a_starts: &[u32],
    a_rows: &[u32],
    a_values: &[f64],
    b: &[f64],
    a_starts2: &[u32],
    a_rows2: &[u32],
    a_values2: &[f64],
    b2: &[f64],
    a_starts_out: &mut [u32],
    a_rows_out: &mut [u32],
    a_values_out: &mut [f64],
    b_out: &mut [f64],
)
    requires { let one = system a_starts.now a_rows.now a_values.now b.now in
        let two = system a_starts2.now a_rows2.now a_values2.now b2.now in
        let out = system a_starts_out.old a_rows_out.old a_values_out.old b_out.old in
        StackFits n m one two out }
    ensures { let one = system a_starts.now a_rows.now a_values.now b.now in
        let two = system a_starts2.now a_rows2.now a_values2.now b2.now in
        let before = system a_starts_out.old a_rows_out.old a_values_out.old b_out.old in
        let after = system a_starts_out.new a_rows_out.new a_values_out.new b_out.new in
        HoldsStack n m one two before after }
{
    stack_starts(n, a_starts, a_starts2, a_starts_out);
    stack_rows(n, m, a_starts, a_rows, a_starts2, a_rows2, a_rows_out);
    stack_values(n, a_starts, a_values, a_starts2, a_values2, a_values_out);
    append(b, b2, b_out);
}

// Writes the first problem's pattern words `words`, followed by those of the second's `count2` patterns with `k` added to each orig_index.
fn write_words(words: &[u32], k: u32, count2: u32, words2: &[u32], out: &mut [u32])
    requires words2_value { ends_right (read_patterns count2 words2.now) ≡ true }
    requires origins_raisable { OriginsRaisable k (patterns count2 words2.now) }
    requires words2_in_bounds { length words.now + length words2.now ≤ length out.old }
    ensures { out.new ≡ written (words.now ++ raised_words k (patterns count2 words2.now)) out.old }
{
    csc::copy_front(&mut *out, words);
    raise_words(k, count2, words2, &mut out[words.len()..]);
}

// Writes cones, α and pattern words, each the first problem's followed by the second's. The second's orig_index values are raised by the
// first's cone count.
pub fn write_layout(
    cones: &[u32],
    alphas: &[f64],
    words: &[u32],
    cones2: &[u32],
    alphas2: &[f64],
    count2: u32,
    words2: &[u32],
    cones_out: &mut [u32],
    alphas_out: &mut [f64],
    words_out: &mut [u32],
)
    requires words2_value { (ends_right (read_patterns count2 words2.now) ≡ true) × OriginsRaisable (length (records cones.now)) (patterns count2 words2.now) }
    requires cones_len_bound { length (records cones.now) ≤ 1024 }
    requires cones2_in_bounds { (length cones.now + length cones2.now ≤ length cones_out.old) × (length alphas.now + length alphas2.now ≤ length alphas_out.old) × (length words.now + length words2.now ≤ length words_out.old) }
    ensures cones_out_after { cones_out.new ≡ written (cones.now ++ cones2.now) cones_out.old }
    ensures alphas_out_after { alphas_out.new ≡ written (alphas.now ++ alphas2.now) alphas_out.old }
    ensures words_out_after { words_out.new ≡ written (words.now ++ raised_words (length (records cones.now)) (patterns count2 words2.now)) words_out.old }
{
    let k = supportedcone::record_count(cones) as u32;
    append(cones, cones2, cones_out);
    append(alphas, alphas2, alphas_out);
    write_words(words, k, count2, words2, words_out);
}
