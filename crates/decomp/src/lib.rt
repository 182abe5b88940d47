// The sizes of the cut's outputs on either route, and the refusals of the cut, with the counts that its writers need. Route 0 is the standard one, 1 the
// compact one.
#![tactic(auto)]

ghost use Rattle.std.specs.Prelude.{◌≡◌, IfOk, length, T, ltb};
ghost use Rattle.layout.specs.General.Lists.{all};
ghost use Rattle.layout.specs.Checks.{Sound, first_failing};
ghost use Rattle.layout.specs.Calls.Answers.{on_route, route_of};
ghost use Rattle.layout.specs.Calls.Cut.{cut_refusal};
ghost use Rattle.layout.specs.Calls.Sizes.{Sizes};
ghost use Rattle.chordal_info.specs.Routes.{Counted, route_tests};
ghost use Rattle.decomp.specs.Adds.{columns_added, Adds};
ghost use Rattle.constants.specs.Refusals.{refusal_of};
ghost use Rattle.problemdata.specs.Tables.{parts_of, problem_of};

use check_problem::Counts;
use constants::{OUTPUTS, Refusal, route};
use problemdata::Problem;

// What the writers of a cut need: the number of block rows, and the number of columns that the route adds.
#[derive(Clone, Copy)]
pub struct Added {
    pub rows: usize,
    pub columns: usize,
}

// Returns the counts of a cut that is not refused. A route adds one column per block row, or one per overlap if compact.
fn with_columns(route: u32, rows: u64, overlaps: u64) -> Added
    ensures { (result.rows ≡ rows) × (result.columns ≡ columns_added (route_of route) rows overlaps) }
{
    let columns = if route == route::STANDARD {
        rows
    } else {
        overlaps
    };
    Added {
        rows: rows as usize,
        columns: columns as usize,
    }
}

// Makes checks 9 and 10 on a problem whose blocks are counted. Returns the first refusal.
fn check_blocks(route: u32, problem: &Problem, c: Counts) -> Result<(), Refusal>
    requires sound { Sound problem.now.m problem.now.cones.now problem.now.count problem.now.words.now }
    requires t { T (all (λ r. ltb r problem.now.m) problem.now.a.rows.now) × (length problem.now.b.now ≡ problem.now.m) }
    requires counted { Counted (parts_of problem.now) c.rows c.overlaps }
    ensures { refusal_of result ≡ first_failing (route_tests (route_of route) problem.now.m problem.now.a.rows.now problem.now.b.now (parts_of problem.now)) }
{
    chordal_info::check_route(route, problem, c.rows, c.overlaps)
}

// Writes the length of each output of the cut to `out`, after checks 1 to 11. The check of the patterns counts the blocks, for check 10, the lengths
// and the writers. Returns the first refusal, or these counts.
fn count_sizes(route: u32, problem: &Problem, out: &mut [u32]) -> Result<Added, Refusal>
    ensures fact { let p = problem_of problem.now in
        Sizes route p out.old out.new (refusal_of result) }
    ensures adds { IfOk result (Adds (route_of route) (parts_of problem.now)) }
{
    if route::COMPACT < route {
        return Err(Refusal::Bound);
    }
    let c = check_problem::count_problem(problem)?;
    check_blocks(route, problem, c)?;
    if out.len() < OUTPUTS {
        return Err(Refusal::Short);
    }
    let p_entries = problem.p.values.len() as u32;
    let a_entries = chordal_info::count_entries(route, problem.n, problem.a.starts, problem.a.rows);
    let alpha_count = problem.alphas.len() as u32;
    chordal_info::write_sizes(
        route,
        problem.n,
        problem.m,
        p_entries,
        a_entries,
        alpha_count,
        c.rows,
        c.overlaps,
        c.cones,
        out,
    );
    Ok(with_columns(route, c.rows, c.overlaps))
}

// Writes the length of each output of the cut to `out`, after checks 1 to 11. Returns the first refusal.
pub fn sizes(route: u32, problem: &Problem, out: &mut [u32]) -> Result<(), Refusal>
    ensures { let p = problem_of problem.now in
        Sizes route p out.old out.new (refusal_of result) }
{
    count_sizes(route, problem, out)?;
    Ok(())
}

// Makes checks 1 to 11 of the cut in order, for outputs of the lengths `rooms`. Returns the first refusal, or the counts.
pub fn refuse_cut(route: u32, problem: &Problem, rooms: &[usize]) -> Result<Added, Refusal>
    ensures refusal_value { let p = problem_of problem.now in
        refusal_of result ≡ on_route route (λ rt. cut_refusal rt p rooms.now) }
    ensures adds { IfOk result (Adds (route_of route) (parts_of problem.now)) }
{
    let mut needs = [0u32; OUTPUTS];
    let c = count_sizes(route, problem, &mut needs)?;
    utils::check_rooms(&needs, rooms)?;
    Ok(c)
}
