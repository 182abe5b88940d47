// Cuts a problem on a route and writes the augmented one to the front of the outputs; clarabel's `decomp_augment`.
ghost use Rattle.layout.specs.Problems.Problem.{problem};
ghost use Rattle.layout.specs.Calls.Cut.{outputs, Cut};

use constants::number_of;
use problemdata::Problem;

#[unsafe(no_mangle)]
pub extern "C" fn chordal_cut(
    route: u32,
    n: u32,
    m: u32,
    p_starts: &[u32],
    p_rows: &[u32],
    p_values: &[f64],
    q: &[f64],
    a_starts: &[u32],
    a_rows: &[u32],
    a_values: &[f64],
    b: &[f64],
    cones: &[u32],
    alphas: &[f64],
    pattern_count: u32,
    pattern_words: &[u32],
    p_starts_out: &mut [u32],
    p_rows_out: &mut [u32],
    p_values_out: &mut [f64],
    q_out: &mut [f64],
    a_starts_out: &mut [u32],
    a_rows_out: &mut [u32],
    a_values_out: &mut [f64],
    b_out: &mut [f64],
    cones_out: &mut [u32],
    alphas_out: &mut [f64],
    map_out: &mut [u32],
) -> u32
    ensures { let p = problem n m p_starts.now p_rows.now p_values.now q.now a_starts.now a_rows.now a_values.now b.now cones.now alphas.now pattern_count pattern_words.now in
        let before = outputs p_starts_out.old p_rows_out.old p_values_out.old q_out.old a_starts_out.old a_rows_out.old a_values_out.old b_out.old cones_out.old alphas_out.old map_out.old in
        let after = outputs p_starts_out.new p_rows_out.new p_values_out.new q_out.new a_starts_out.new a_rows_out.new a_values_out.new b_out.new cones_out.new alphas_out.new map_out.new in
        Cut route p before after result }
{
    let problem = Problem::from_tables(
        n,
        m,
        p_starts,
        p_rows,
        p_values,
        q,
        a_starts,
        a_rows,
        a_values,
        b,
        cones,
        alphas,
        pattern_count,
        pattern_words,
    );
    number_of(cut_on_route::cut(
        route,
        &problem,
        p_starts_out,
        p_rows_out,
        p_values_out,
        q_out,
        a_starts_out,
        a_rows_out,
        a_values_out,
        b_out,
        cones_out,
        alphas_out,
        map_out,
    ))
}
