// Compares the tables of two problems: numbers, doubles, all that same layout compares, and all that checks 1 to 7 read.
#![tactic(auto)]

ghost use Rattle.std.specs.Prelude.{◌≡◌, ◌&&◌, cond, eqb};
ghost use Rattle.layout.specs.General.Lists.{same_by, same_numbers};
ghost use Rattle.layout.specs.General.Floats.{same_bits};
ghost use Rattle.layout.specs.Calls.SameLayout.{same_layout};
ghost use Rattle.same_tables.specs.Compared.{compared};

// Returns whether `xs` and `ys` are the same numbers in the same order. The walk goes on after a difference, so that the compiler compares
// several numbers at a time.
pub fn same_numbers(xs: &[u32], ys: &[u32]) -> bool
    ensures { result ≡ same_numbers xs.now ys.now }
{
    if xs.len() != ys.len() {
        return false;
    }
    let mut same = true;
    for (i, &x) in xs.iter().enumerate() {
        if x != ys[i] {
            same = false;
        }
    }
    same
}

// Returns whether `x` and `y` are equal bit by bit, so that the two zeros differ. The bits of a NaN cannot be read, so all NaNs are equal.
fn same_double(x: f64, y: f64) -> bool
    ensures { result ≡ same_bits x y }
{
    if x.is_nan() {
        return y.is_nan();
    }
    !y.is_nan() && x.to_bits() == y.to_bits()
}

// Returns whether `xs` and `ys` are the same doubles, bit by bit, in the same order.
pub fn same_doubles(xs: &[f64], ys: &[f64]) -> bool
    ensures { result ≡ same_by same_bits xs.now ys.now }
{
    if xs.len() != ys.len() {
        return false;
    }
    for (i, &x) in xs.iter().enumerate() {
        if !same_double(x, ys[i]) {
            return false;
        }
    }
    true
}

// Returns whether two matrices have equal starts and rows; their values are not compared.
pub fn same_places(starts: &[u32], rows: &[u32], starts2: &[u32], rows2: &[u32]) -> bool
    ensures { result ≡ (same_numbers starts.now starts2.now && same_numbers rows.now rows2.now) }
{
    same_numbers(starts, starts2) && same_numbers(rows, rows2)
}

// Returns whether two problems have equal n, m, cones and pattern words. The pattern counts need not be compared: equal words that both pass
// check 5 have equally many patterns.
pub fn cones_agree(
    n: u32,
    m: u32,
    cones: &[u32],
    words: &[u32],
    n2: u32,
    m2: u32,
    cones2: &[u32],
    words2: &[u32],
) -> bool
    ensures { result ≡ (eqb n n2 && eqb m m2 && same_numbers cones.now cones2.now && same_numbers words.now words2.now) }
{
    n == n2 && m == m2 && same_numbers(cones, cones2) && same_numbers(words, words2)
}

// Returns whether two problems have the same layout: equal n, m, cones, pattern words, exponents, and starts and rows of A and P.
pub fn layouts_agree(
    n: u32,
    m: u32,
    p_starts: &[u32],
    p_rows: &[u32],
    a_starts: &[u32],
    a_rows: &[u32],
    cones: &[u32],
    alphas: &[f64],
    words: &[u32],
    n2: u32,
    m2: u32,
    p_starts2: &[u32],
    p_rows2: &[u32],
    a_starts2: &[u32],
    a_rows2: &[u32],
    cones2: &[u32],
    alphas2: &[f64],
    words2: &[u32],
) -> bool
    ensures { let p = compared n m p_starts.now p_rows.now a_starts.now a_rows.now cones.now alphas.now words.now in
        let other = compared n2 m2 p_starts2.now p_rows2.now a_starts2.now a_rows2.now cones2.now alphas2.now words2.now in
        result ≡ same_layout p other }
{
    cones_agree(n, m, cones, words, n2, m2, cones2, words2)
        && same_doubles(alphas, alphas2)
        && same_places(a_starts, a_rows, a_starts2, a_rows2)
        && same_places(p_starts, p_rows, p_starts2, p_rows2)
}

// Returns 1 for true and 0 for false.
pub fn word_of(yes: bool) -> u32
    ensures { result ≡ cond yes 1 0 }
{
    yes as u32
}

// Returns whether checks 1 to 7 read the same of two problems: their layouts are the `same`, and their counts of patterns and values are equal.
pub fn checked_alike(
    same: bool,
    count: u32,
    p_values: usize,
    q: usize,
    a_values: usize,
    b: usize,
    count2: u32,
    p_values2: usize,
    q2: usize,
    a_values2: usize,
    b2: usize,
) -> bool
    ensures { result ≡ (same && eqb count count2 && eqb p_values p_values2 && eqb q q2 && eqb a_values a_values2 && eqb b b2) }
{
    same && count == count2 && p_values == p_values2 && q == q2 && a_values == a_values2 && b == b2
}
