// Pools two problems over the same unknowns into one (Q-11): the rows of the first above those of the second.
#![tactic(auto)]

ghost use Rattle.layout.specs.Calls.Tables.{tables};
ghost use Rattle.layout.specs.Calls.Pool.{Pool};
ghost use Rattle.constants.specs.Refusals.{refusal_of};
ghost use Rattle.problemdata.specs.Tables.{problem_of};

use constants::Refusal;
use problemdata::Problem;

// Writes the tables of the pool to the front of the outputs. Its n is that of both problems; its m, cone count and pattern count are sums. Returns
// the first refusal.
pub fn pool(
    first: &Problem,
    second: &Problem,
    p_starts_out: &mut [u32],
    p_rows_out: &mut [u32],
    p_values_out: &mut [f64],
    q_out: &mut [f64],
    a_starts_out: &mut [u32],
    a_rows_out: &mut [u32],
    a_values_out: &mut [f64],
    b_out: &mut [f64],
    cones_out: &mut [u32],
    alphas_out: &mut [f64],
    pattern_words_out: &mut [u32],
) -> Result<(), Refusal>
    ensures { let p = problem_of first.now in
        let other = problem_of second.now in
        let before = tables p_starts_out.old p_rows_out.old p_values_out.old q_out.old a_starts_out.old a_rows_out.old a_values_out.old b_out.old cones_out.old alphas_out.old pattern_words_out.old in
        let after = tables p_starts_out.new p_rows_out.new p_values_out.new q_out.new a_starts_out.new a_rows_out.new a_values_out.new b_out.new cones_out.new alphas_out.new pattern_words_out.new in
        Pool p other before after (refusal_of result) }
{
    let rooms = [
        p_starts_out.len(),
        p_rows_out.len(),
        p_values_out.len(),
        q_out.len(),
        a_starts_out.len(),
        a_rows_out.len(),
        a_values_out.len(),
        b_out.len(),
        cones_out.len(),
        alphas_out.len(),
        pattern_words_out.len(),
    ];
    pool_refusals::refuse(first, second, &rooms)?;
    pool_tables::copy_matrix(
        first.p.starts,
        first.p.rows,
        first.p.values,
        p_starts_out,
        p_rows_out,
        p_values_out,
    );
    csc::copy_front(q_out, first.q);
    pool_tables::write_constraints(
        first.n,
        first.m,
        first.a.starts,
        first.a.rows,
        first.a.values,
        first.b,
        second.a.starts,
        second.a.rows,
        second.a.values,
        second.b,
        a_starts_out,
        a_rows_out,
        a_values_out,
        b_out,
    );
    pool_tables::write_layout(
        first.cones,
        first.alphas,
        first.words,
        second.cones,
        second.alphas,
        second.count,
        second.words,
        cones_out,
        alphas_out,
        pattern_words_out,
    );
    Ok(())
}
