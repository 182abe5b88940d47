// The change of route (Q-12): writes a standard solution as a compact one of the same problem.
#![tactic(auto)]

ghost use Rattle.std.specs.Prelude.{◌≡◌, [], ◌∷◌, ◌≤◌};
ghost use Rattle.layout.specs.Problems.Problem.{solution};
ghost use Rattle.layout.specs.Calls.Join.{rejoined};
ghost use Rattle.layout.specs.Calls.ChangeRoute.{ChangeRoute};
ghost use Rattle.change_route.specs.Counted.{counted_refusal};
ghost use Rattle.constants.specs.Refusals.{refusal_of};

use chordal_info::rows_right;
use constants::{Refusal, route};
use join_on_route::{lengths_fit, room_enough, write_scalars};
use reverse_standard::Scalars;

// Makes checks 10 to 12 in order, from counts and lengths: 10 of both routes, the output lengths, and the lengths of x, s and z. Returns the first
// refusal.
fn refuse_counted(
    n: u32,
    m: u32,
    rows: u64,
    overlaps: u64,
    x: usize,
    s: usize,
    z: usize,
    x_room: usize,
    s_room: usize,
    z_room: usize,
    scalars_room: usize,
) -> Result<(), Refusal>
    requires { (n ≤ 65536) × (overlaps ≤ rows) }
    ensures { refusal_of result ≡ counted_refusal n m rows overlaps x s z (x_room ∷ s_room ∷ z_room ∷ scalars_room ∷ []) }
{
    if !rows_right(route::STANDARD, m, rows, overlaps) {
        return Err(Refusal::TooLarge);
    }
    if !rows_right(route::COMPACT, m, rows, overlaps) {
        return Err(Refusal::TooLarge);
    }
    if !room_enough(
        n + overlaps as u32,
        rows as u32,
        x_room,
        s_room,
        z_room,
        scalars_room,
    ) {
        return Err(Refusal::Short);
    }
    if !lengths_fit(route::STANDARD, n, m, rows, overlaps, x, s, z) {
        return Err(Refusal::Solution);
    }
    Ok(())
}

// Writes a standard solution as a compact one of the same problem. The blocks are counted once, for the checks and for x. A refused call
// leaves the outputs unchanged.
pub fn change_route(
    n: u32,
    m: u32,
    cones: &[u32],
    count: u32,
    words: &[u32],
    x: &[f64],
    s: &[f64],
    z: &[f64],
    tau: f64,
    kappa: f64,
    x_out: &mut [f64],
    s_out: &mut [f64],
    z_out: &mut [f64],
    scalars_out: &mut [f64],
) -> Result<(), Refusal>
    ensures { let sol = solution x.now s.now z.now tau kappa in
        let before = rejoined x_out.old s_out.old z_out.old scalars_out.old in
        let after = rejoined x_out.new s_out.new z_out.new scalars_out.new in
        ChangeRoute n m cones.now count words.now sol before after (refusal_of result) }
{
    let c = check_problem::check_joined(n, m, cones, count, words)?;
    refuse_counted(
        n,
        m,
        c.rows,
        c.overlaps,
        x.len(),
        s.len(),
        z.len(),
        x_out.len(),
        s_out.len(),
        z_out.len(),
        scalars_out.len(),
    )?;
    change_order::change_x(n, x, c.overlaps, x_out);
    change_order::change_slacks(m, cones, count, words, s, z, s_out, z_out);
    let scalars = Scalars { tau, kappa };
    write_scalars(scalars, scalars_out);
    Ok(())
}
