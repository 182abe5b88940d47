// The refusals, in order, of the compact cut with more than one right side: with low and high limits, and with many right sides. Each comes with the
// counts that the cut's writers need.
#![tactic(auto)]

ghost use Rattle.std.specs.Prelude.{◌≡◌, IfOk, cond, ◌*◌, ◌≤◌, ◌<◌, length, get_or, set};
ghost use Rattle.layout.specs.General.Lists.{written};
ghost use Rattle.layout.specs.Problems.Problem.{compact, with_b};
ghost use Rattle.layout.specs.Calls.Answers.{roomy};
ghost use Rattle.layout.specs.Calls.CutBetween.{limits_refusal};
ghost use Rattle.layout.specs.Calls.CutMany.{side, sides_refusal};
ghost use Rattle.chordal_info.specs.Sizes.{entries_kept, route_sizes, Fitting};
ghost use Rattle.decomp.specs.Adds.{Adds};
ghost use Rattle.side_numbers.specs.Order.{with_another};
ghost use Rattle.side_refusals.specs.Tables.{TablesFew};
ghost use Rattle.constants.specs.Refusals.{refusal_of};
ghost use Rattle.problemdata.specs.Tables.{parts_of, problem_of};

use check_problem::Counts;
use constants::{OUTPUTS, Refusal, route};
use decomp::Added;
use problemdata::Problem;

// The index of b among the outputs of a cut.
const RIGHT_SIDE: usize = 7;

// ---- required lengths of the outputs

// Writes to `out` the required length of each output of a single compact cut, from the counts of rows, overlaps and cones of accepted blocks.
fn cut_needs(problem: &Problem, counts: Counts, out: &mut [u32])
    requires in_bounds { 11 ≤ length out.old }
    requires tables_few { let p = problem_of problem.now in TablesFew p.n (length p.P.values) (length p.alphas) p.A.starts p.A.rows }
    requires fitting { let p = problem_of problem.now in
        Fitting compact p.n p.m (entries_kept compact p.n p.A.starts p.A.rows) counts.rows counts.overlaps counts.cones }
    ensures { let p = problem_of problem.now in
        out.new ≡ written (route_sizes compact p.n p.m (length p.P.values) (entries_kept compact p.n p.A.starts p.A.rows) (length p.alphas) counts.rows counts.overlaps counts.cones) out.old }
{
    let p_entries = problem.p.values.len() as u32;
    let a_entries = chordal_info::count_entries(
        route::COMPACT,
        problem.n,
        problem.a.starts,
        problem.a.rows,
    );
    let alpha_count = problem.alphas.len() as u32;
    chordal_info::write_sizes(
        route::COMPACT,
        problem.n,
        problem.m,
        p_entries,
        a_entries,
        alpha_count,
        counts.rows,
        counts.overlaps,
        counts.cones,
        out,
    );
}

// ---- limits of a right side

// Makes check 11 of the cut with limits: `high_room` is compared with the length of b in a single cut, and `rooms` with `needs`.
fn check_limits_rooms(needs: &[u32], rooms: &[usize], high_room: usize) -> Result<(), Refusal>
    requires { (8 ≤ length needs.now) × (8 ≤ length rooms.now) }
    ensures { refusal_of result ≡ cond (roomy (with_another (get_or needs.now 7 0) needs.now) (with_another high_room rooms.now)) 0 11 }
{
    if high_room < needs[RIGHT_SIDE] as usize {
        return Err(Refusal::Short);
    }
    utils::check_rooms(needs, rooms)
}

// Makes checks 1 to 11 of the cut with limits in order. `rooms` holds the length of each output of the cut with `low`, `high_room` that of
// the augmented `high`. Returns the first refusal, or the counts.
pub fn refuse_between(
    problem: &Problem,
    high: &[f64],
    rooms: &[usize],
    high_room: usize,
) -> Result<Added, Refusal>
    requires { 8 ≤ length rooms.now }
    ensures refusal_value { let p = problem_of problem.now in
        refusal_of result ≡ limits_refusal p problem.now.b.now high.now (with_another high_room rooms.now) }
    ensures adds { IfOk result (Adds compact (parts_of problem.now)) }
{
    let counted = check_problem::count_problem(problem);
    let d = side_numbers::refuse_limits(counted, problem.m, problem.b, high)?;
    let c = check_covered::sides_right(
        problem.m,
        problem.cones,
        problem.count,
        problem.words,
        problem.a.rows,
        problem.b,
        high,
        0,
        1,
    );
    let ten = chordal_info::rows_refusal(route::COMPACT, problem.m, d.rows, d.overlaps);
    side_numbers::refuse_limits_rows(c, ten)?;
    let mut needs = [0u32; OUTPUTS];
    cut_needs(problem, d, &mut needs);
    check_limits_rooms(&needs, rooms, high_room)?;
    Ok(Added {
        rows: d.rows as usize,
        columns: d.overlaps as usize,
    })
}

// ---- many right sides

// Makes check 11 for `count` right sides: multiplies the length of b in `needs` by `count`, then compares.
fn check_sides_rooms(needs: &mut [u32], count: u32, rooms: &[usize]) -> Result<(), Refusal>
    requires { (8 ≤ length needs.old) × (count * get_or needs.old 7 0 < 4294967296) }
    ensures { refusal_of result ≡ cond (roomy (set needs.old 7 (count * get_or needs.old 7 0)) rooms.now) 0 11 }
{
    needs[RIGHT_SIDE] = count * needs[RIGHT_SIDE];
    utils::check_rooms(needs, rooms)
}

// Makes checks 1 to 11 for 1 to 64 right sides in order; `problem` has the first of `sides`. For further sides only check 9 depends on the
// values. Returns the first refusal, or the counts.
fn refuse_sides(
    count: u32,
    problem: &Problem,
    sides: &[f64],
    rooms: &[usize],
) -> Result<Added, Refusal>
    requires { (1 ≤ count) × (count ≤ 64) × (problem.now.b.now ≡ side problem.now.m 0 sides.now) }
    ensures refusal_value { let p = with_b (problem_of problem.now) sides.now in
        refusal_of result ≡ sides_refusal p count sides.now rooms.now }
    ensures adds { IfOk result (Adds compact (parts_of problem.now)) }
{
    let counted = check_problem::count_problem(problem);
    let d = side_numbers::refuse_lengths(counted, problem.m, count, sides.len())?;
    let c = check_covered::sides_right(
        problem.m,
        problem.cones,
        problem.count,
        problem.words,
        problem.a.rows,
        problem.b,
        sides,
        1,
        count,
    );
    let ten = chordal_info::rows_refusal(route::COMPACT, problem.m, d.rows, d.overlaps);
    side_numbers::refuse_first(c, ten)?;
    let mut needs = [0u32; OUTPUTS];
    cut_needs(problem, d, &mut needs);
    let eleven = check_sides_rooms(&mut needs, count, rooms);
    side_numbers::refuse_further(c, eleven)?;
    Ok(Added {
        rows: d.rows as usize,
        columns: d.overlaps as usize,
    })
}

// Makes checks 1 to 11 of the cut with `count` right sides in order, `count` itself included. Returns the first refusal, or the counts.
pub fn refuse_many(count: u32, problem: &Problem, rooms: &[usize]) -> Result<Added, Refusal>
    ensures refusal_value { let p = problem_of problem.now in
        refusal_of result ≡ sides_refusal p count problem.now.b.now rooms.now }
    ensures adds { IfOk result (Adds compact (parts_of problem.now)) }
{
    side_numbers::check_count(count)?;
    let sides = problem.b;
    let size = side_numbers::first_size(problem.m, sides.len());
    let first = Problem {
        b: &sides[..size],
        ..*problem
    };
    refuse_sides(count, &first, sides, rooms)
}
