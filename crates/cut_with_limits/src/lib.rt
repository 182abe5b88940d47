// The compact cut of a problem whose b is known only within limits (Q-8).
#![tactic(auto)]

ghost use Rattle.layout.specs.Calls.Cut.{outputs};
ghost use Rattle.layout.specs.Calls.CutBetween.{limits, CutBetween};
ghost use Rattle.constants.specs.Refusals.{refusal_of};
ghost use Rattle.problemdata.specs.Tables.{problem_of};

use constants::Refusal;
use problemdata::Problem;
use rows_tables::Table;

// Cuts a problem on the compact route with the right sides `low` and `high`, and writes both augmented b, value by value to the same rows. Returns
// the first refusal.
pub fn cut_between(
    problem: &Problem,
    high: &[f64],
    p_starts_out: &mut [u32],
    p_rows_out: &mut [u32],
    p_values_out: &mut [f64],
    q_out: &mut [f64],
    a_starts_out: &mut [u32],
    a_rows_out: &mut [u32],
    a_values_out: &mut [f64],
    b_low_out: &mut [f64],
    b_high_out: &mut [f64],
    cones_out: &mut [u32],
    alphas_out: &mut [f64],
    map_out: &mut [u32],
) -> Result<(), Refusal>
    ensures { let p = problem_of problem.now in
        let before = limits (outputs p_starts_out.old p_rows_out.old p_values_out.old q_out.old a_starts_out.old a_rows_out.old a_values_out.old b_low_out.old cones_out.old alphas_out.old map_out.old) b_high_out.old in
        let after = limits (outputs p_starts_out.new p_rows_out.new p_values_out.new q_out.new a_starts_out.new a_rows_out.new a_values_out.new b_low_out.new cones_out.new alphas_out.new map_out.new) b_high_out.new in
        CutBetween p problem.now.b.now high.now before after (refusal_of result) }
{
    let rooms = [
        p_starts_out.len(),
        p_rows_out.len(),
        p_values_out.len(),
        q_out.len(),
        a_starts_out.len(),
        a_rows_out.len(),
        a_values_out.len(),
        b_low_out.len(),
        cones_out.len(),
        alphas_out.len(),
        map_out.len(),
    ];
    let high_room = b_high_out.len();
    let c = side_refusals::refuse_between(problem, high, &rooms, high_room)?;
    cut_standard::write_objective(
        problem.n,
        problem.p.starts,
        problem.p.rows,
        problem.p.values,
        problem.q,
        problem.alphas,
        c.columns,
        p_starts_out,
        p_rows_out,
        p_values_out,
        q_out,
        alphas_out,
    );
    cut_compact::write_compact_a(
        problem.n,
        problem.m,
        problem.a.starts,
        problem.a.rows,
        problem.a.values,
        problem.b,
        1,
        high, // to the same rows as low
        1,
        problem.cones,
        problem.count,
        problem.words,
        c.rows,
        c.columns,
        a_starts_out,
        a_rows_out,
        a_values_out,
        b_low_out,
        b_high_out,
    );
    rows_tables::write_table(
        Table::CompactCones,
        problem.m,
        problem.cones,
        problem.count,
        problem.words,
        cones_out,
    );
    rows_tables::write_table(
        Table::ConeMap,
        problem.m,
        problem.cones,
        problem.count,
        problem.words,
        map_out,
    );
    Ok(())
}
