// Pools two problems over the same unknowns into one: writes the rows of the first above those of the second.
ghost use Rattle.layout.specs.Problems.Problem.{problem};
ghost use Rattle.layout.specs.Calls.Tables.{tables};
ghost use Rattle.layout.specs.Calls.Pool.{Pool};

use constants::number_of;
use problemdata::Problem;

#[unsafe(no_mangle)]
pub extern "C" fn chordal_pool(
    n: u32,
    m: u32,
    p_starts: &[u32],
    p_rows: &[u32],
    p_values: &[f64],
    q: &[f64],
    a_starts: &[u32],
    a_rows: &[u32],
    a_values: &[f64],
    b: &[f64],
    cones: &[u32],
    alphas: &[f64],
    pattern_count: u32,
    pattern_words: &[u32],
    n2: u32,
    m2: u32,
    p_starts2: &[u32],
    p_rows2: &[u32],
    p_values2: &[f64],
    q2: &[f64],
    a_starts2: &[u32],
    a_rows2: &[u32],
    a_values2: &[f64],
    b2: &[f64],
    cones2: &[u32],
    alphas2: &[f64],
    pattern_count2: u32,
    pattern_words2: &[u32],
    p_starts_out: &mut [u32],
    p_rows_out: &mut [u32],
    p_values_out: &mut [f64],
    q_out: &mut [f64],
    a_starts_out: &mut [u32],
    a_rows_out: &mut [u32],
    a_values_out: &mut [f64],
    b_out: &mut [f64],
    cones_out: &mut [u32],
    alphas_out: &mut [f64],
    pattern_words_out: &mut [u32],
) -> u32
    ensures { let p = problem n m p_starts.now p_rows.now p_values.now q.now a_starts.now a_rows.now a_values.now b.now cones.now alphas.now pattern_count pattern_words.now in
        let other = problem n2 m2 p_starts2.now p_rows2.now p_values2.now q2.now a_starts2.now a_rows2.now a_values2.now b2.now cones2.now alphas2.now pattern_count2 pattern_words2.now in
        let before = tables p_starts_out.old p_rows_out.old p_values_out.old q_out.old a_starts_out.old a_rows_out.old a_values_out.old b_out.old cones_out.old alphas_out.old pattern_words_out.old in
        let after = tables p_starts_out.new p_rows_out.new p_values_out.new q_out.new a_starts_out.new a_rows_out.new a_values_out.new b_out.new cones_out.new alphas_out.new pattern_words_out.new in
        Pool p other before after result }
{
    let first = Problem::from_tables(
        n,
        m,
        p_starts,
        p_rows,
        p_values,
        q,
        a_starts,
        a_rows,
        a_values,
        b,
        cones,
        alphas,
        pattern_count,
        pattern_words,
    );
    let second = Problem::from_tables(
        n2,
        m2,
        p_starts2,
        p_rows2,
        p_values2,
        q2,
        a_starts2,
        a_rows2,
        a_values2,
        b2,
        cones2,
        alphas2,
        pattern_count2,
        pattern_words2,
    );
    number_of(pool::pool(
        &first,
        &second,
        p_starts_out,
        p_rows_out,
        p_values_out,
        q_out,
        a_starts_out,
        a_rows_out,
        a_values_out,
        b_out,
        cones_out,
        alphas_out,
        pattern_words_out,
    ))
}
