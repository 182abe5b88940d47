// Joins a solution of the augmented problem to one of the original problem; clarabel's `decomp_reverse`.
ghost use Rattle.layout.specs.Problems.Problem.{solution};
ghost use Rattle.layout.specs.Calls.Join.{rejoined, Join};

use constants::number_of;

#[unsafe(no_mangle)]
pub extern "C" fn chordal_join(
    route: u32,
    n: u32,
    m: u32,
    cones: &[u32],
    pattern_count: u32,
    pattern_words: &[u32],
    x: &[f64],
    s: &[f64],
    z: &[f64],
    tau: f64,
    kappa: f64,
    map: &[u32],
    x_out: &mut [f64],
    s_out: &mut [f64],
    z_out: &mut [f64],
    scalars_out: &mut [f64],
) -> u32
    ensures { let sol = solution x.now s.now z.now tau kappa in
        let before = rejoined x_out.old s_out.old z_out.old scalars_out.old in
        let after = rejoined x_out.new s_out.new z_out.new scalars_out.new in
        Join route n m cones.now pattern_count pattern_words.now sol map.now before after result }
{
    number_of(join_on_route::join(
        route,
        n,
        m,
        cones,
        pattern_count,
        pattern_words,
        x,
        s,
        z,
        tau,
        kappa,
        map,
        x_out,
        s_out,
        z_out,
        scalars_out,
    ))
}
