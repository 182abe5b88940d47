// Writes a standard solution as a compact solution of the same problem.
ghost use Rattle.layout.specs.Problems.Problem.{solution};
ghost use Rattle.layout.specs.Calls.Join.{rejoined};
ghost use Rattle.layout.specs.Calls.ChangeRoute.{ChangeRoute};

use constants::number_of;

#[unsafe(no_mangle)]
pub extern "C" fn chordal_change_route(
    n: u32,
    m: u32,
    cones: &[u32],
    pattern_count: u32,
    pattern_words: &[u32],
    x: &[f64],
    s: &[f64],
    z: &[f64],
    tau: f64,
    kappa: f64,
    x_out: &mut [f64],
    s_out: &mut [f64],
    z_out: &mut [f64],
    scalars_out: &mut [f64],
) -> u32
    ensures { let sol = solution x.now s.now z.now tau kappa in
        let before = rejoined x_out.old s_out.old z_out.old scalars_out.old in
        let after = rejoined x_out.new s_out.new z_out.new scalars_out.new in
        ChangeRoute n m cones.now pattern_count pattern_words.now sol before after result }
{
    number_of(change_route::change_route(
        n,
        m,
        cones,
        pattern_count,
        pattern_words,
        x,
        s,
        z,
        tau,
        kappa,
        x_out,
        s_out,
        z_out,
        scalars_out,
    ))
}
