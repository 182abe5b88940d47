// Writes a test problem that any site can make again, from a seed, a vertex count, a band width and a number of columns (Q-5).
ghost use Rattle.layout.specs.Calls.Tables.{tables};
ghost use Rattle.layout.specs.Calls.Generate.{Generate};

use constants::number_of;

#[unsafe(no_mangle)]
pub extern "C" fn chordal_generate(
    seed: u64,
    v: u32,
    w: u32,
    n: u32,
    p_starts_out: &mut [u32],
    p_rows_out: &mut [u32],
    p_values_out: &mut [f64],
    q_out: &mut [f64],
    a_starts_out: &mut [u32],
    a_rows_out: &mut [u32],
    a_values_out: &mut [f64],
    b_out: &mut [f64],
    cones_out: &mut [u32],
    alphas_out: &mut [f64],
    pattern_words_out: &mut [u32],
) -> u32
    ensures { let before = tables p_starts_out.old p_rows_out.old p_values_out.old q_out.old a_starts_out.old a_rows_out.old a_values_out.old b_out.old cones_out.old alphas_out.old pattern_words_out.old in
        let after = tables p_starts_out.new p_rows_out.new p_values_out.new q_out.new a_starts_out.new a_rows_out.new a_values_out.new b_out.new cones_out.new alphas_out.new pattern_words_out.new in
        Generate seed v w n before after result }
{
    number_of(generator::generate(
        seed,
        v,
        w,
        n,
        p_starts_out,
        p_rows_out,
        p_values_out,
        q_out,
        a_starts_out,
        a_rows_out,
        a_values_out,
        b_out,
        cones_out,
        alphas_out,
        pattern_words_out,
    ))
}
