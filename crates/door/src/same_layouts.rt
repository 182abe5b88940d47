// Writes whether two problems agree in everything but the values of P, q, A and b.
ghost use Rattle.layout.specs.Problems.Problem.{problem};
ghost use Rattle.layout.specs.Calls.SameLayout.{SameLayout};

use constants::number_of;
use problemdata::Problem;

#[unsafe(no_mangle)]
pub extern "C" fn chordal_same_layout(
    n: u32,
    m: u32,
    p_starts: &[u32],
    p_rows: &[u32],
    p_values: &[f64],
    q: &[f64],
    a_starts: &[u32],
    a_rows: &[u32],
    a_values: &[f64],
    b: &[f64],
    cones: &[u32],
    alphas: &[f64],
    pattern_count: u32,
    pattern_words: &[u32],
    n2: u32,
    m2: u32,
    p_starts2: &[u32],
    p_rows2: &[u32],
    p_values2: &[f64],
    q2: &[f64],
    a_starts2: &[u32],
    a_rows2: &[u32],
    a_values2: &[f64],
    b2: &[f64],
    cones2: &[u32],
    alphas2: &[f64],
    pattern_count2: u32,
    pattern_words2: &[u32],
    out: &mut [u32],
) -> u32
    ensures { let p = problem n m p_starts.now p_rows.now p_values.now q.now a_starts.now a_rows.now a_values.now b.now cones.now alphas.now pattern_count pattern_words.now in
        let other = problem n2 m2 p_starts2.now p_rows2.now p_values2.now q2.now a_starts2.now a_rows2.now a_values2.now b2.now cones2.now alphas2.now pattern_count2 pattern_words2.now in
        SameLayout p other out.old out.new result }
{
    let first = Problem::from_tables(
        n,
        m,
        p_starts,
        p_rows,
        p_values,
        q,
        a_starts,
        a_rows,
        a_values,
        b,
        cones,
        alphas,
        pattern_count,
        pattern_words,
    );
    let second = Problem::from_tables(
        n2,
        m2,
        p_starts2,
        p_rows2,
        p_values2,
        q2,
        a_starts2,
        a_rows2,
        a_values2,
        b2,
        cones2,
        alphas2,
        pattern_count2,
        pattern_words2,
    );
    number_of(same_layout::same_layout(&first, &second, out))
}
