// The compact cut of one problem with several right sides (Q-1).
#![tactic(auto)]

ghost use Rattle.layout.specs.Calls.Cut.{outputs};
ghost use Rattle.layout.specs.Calls.CutMany.{CutMany};
ghost use Rattle.constants.specs.Refusals.{refusal_of};
ghost use Rattle.problemdata.specs.Tables.{problem_of};

use constants::Refusal;
use problemdata::Problem;
use rows_tables::Table;

// Cuts a problem with `count` right sides, one after another in `b`, on the compact route: writes everything but b once, and the augmented b of each
// side in turn. Returns the first refusal.
pub fn cut_many(
    count: u32,
    problem: &Problem,
    p_starts_out: &mut [u32],
    p_rows_out: &mut [u32],
    p_values_out: &mut [f64],
    q_out: &mut [f64],
    a_starts_out: &mut [u32],
    a_rows_out: &mut [u32],
    a_values_out: &mut [f64],
    b_out: &mut [f64],
    cones_out: &mut [u32],
    alphas_out: &mut [f64],
    map_out: &mut [u32],
) -> Result<(), Refusal>
    ensures { let p = problem_of problem.now in
        let before = outputs p_starts_out.old p_rows_out.old p_values_out.old q_out.old a_starts_out.old a_rows_out.old a_values_out.old b_out.old cones_out.old alphas_out.old map_out.old in
        let after = outputs p_starts_out.new p_rows_out.new p_values_out.new q_out.new a_starts_out.new a_rows_out.new a_values_out.new b_out.new cones_out.new alphas_out.new map_out.new in
        CutMany count p before after (refusal_of result) }
{
    let rooms = [
        p_starts_out.len(),
        p_rows_out.len(),
        p_values_out.len(),
        q_out.len(),
        a_starts_out.len(),
        a_rows_out.len(),
        a_values_out.len(),
        b_out.len(),
        cones_out.len(),
        alphas_out.len(),
        map_out.len(),
    ];
    let c = side_refusals::refuse_many(count, problem, &rooms)?;
    cut_standard::write_objective(
        problem.n,
        problem.p.starts,
        problem.p.rows,
        problem.p.values,
        problem.q,
        problem.alphas,
        c.columns,
        p_starts_out,
        p_rows_out,
        p_values_out,
        q_out,
        alphas_out,
    );
    let mut none = [0.0; 1];
    cut_compact::write_compact_a(
        problem.n,
        problem.m,
        problem.a.starts,
        problem.a.rows,
        problem.a.values,
        problem.b,
        count,
        problem.b,
        0, // no other right sides
        problem.cones,
        problem.count,
        problem.words,
        c.rows,
        c.columns,
        a_starts_out,
        a_rows_out,
        a_values_out,
        b_out,
        &mut none,
    );
    rows_tables::write_table(
        Table::CompactCones,
        problem.m,
        problem.cones,
        problem.count,
        problem.words,
        cones_out,
    );
    rows_tables::write_table(
        Table::ConeMap,
        problem.m,
        problem.cones,
        problem.count,
        problem.words,
        map_out,
    );
    Ok(())
}
