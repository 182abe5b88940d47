// Writes the length of each output of a problem's cut.
ghost use Rattle.layout.specs.Problems.Problem.{problem};
ghost use Rattle.layout.specs.Calls.Sizes.{Sizes};

use constants::number_of;
use problemdata::Problem;

#[unsafe(no_mangle)]
pub extern "C" fn chordal_sizes(
    route: u32,
    n: u32,
    m: u32,
    p_starts: &[u32],
    p_rows: &[u32],
    p_values: &[f64],
    q: &[f64],
    a_starts: &[u32],
    a_rows: &[u32],
    a_values: &[f64],
    b: &[f64],
    cones: &[u32],
    alphas: &[f64],
    pattern_count: u32,
    pattern_words: &[u32],
    out: &mut [u32],
) -> u32
    ensures { let p = problem n m p_starts.now p_rows.now p_values.now q.now a_starts.now a_rows.now a_values.now b.now cones.now alphas.now pattern_count pattern_words.now in
        Sizes route p out.old out.new result }
{
    let problem = Problem::from_tables(
        n,
        m,
        p_starts,
        p_rows,
        p_values,
        q,
        a_starts,
        a_rows,
        a_values,
        b,
        cones,
        alphas,
        pattern_count,
        pattern_words,
    );
    number_of(decomp::sizes(route, &problem, out))
}
