// The refusals of a pool in order: checks 1 to 7 of each problem, equal numbers of unknowns, the pool's bounds, the output lengths.
#![tactic(auto)]

ghost use Rattle.std.specs.Prelude.{◌≡◌, ◌&&◌, cond, ◌+◌, ◌≤◌, length, eqb, leb};
ghost use Rattle.layout.specs.Problems.Cones.{records};
ghost use Rattle.layout.specs.Calls.Answers.{roomy};
ghost use Rattle.layout.specs.Calls.Pool.{pool_refusal};
ghost use Rattle.pool_refusals.specs.Refusals.{second_refusal, both_refusal};
ghost use Rattle.constants.specs.Refusals.{refusal_of};
ghost use Rattle.problemdata.specs.Tables.{problem_of};

use constants::{Refusal, limit};
use problemdata::Problem;

// Compares the unknowns of the first problem and of the second.
fn compare_unknowns(n: u32, n2: u32) -> Result<(), Refusal>
    ensures { refusal_of result ≡ cond (eqb n n2) 0 17 }
{
    if n != n2 {
        return Err(Refusal::Unknowns);
    }
    Ok(())
}

// Makes checks 1 to 7 of the second problem, then compares its unknowns with the `n` of the first. Returns the first refusal.
fn check_second(n: u32, second: &Problem) -> Result<(), Refusal>
    ensures { let other = problem_of second.now in
        refusal_of result ≡ second_refusal n other }
{
    check_problem::check_problem(second)?;
    compare_unknowns(n, second.n)
}

// Makes checks 1 to 7 of the first problem, then of the second, then compares their unknowns. The second's are not made if they would read the
// same as of the first, as in a second pass over the same layout. Returns the first refusal.
fn check_both(first: &Problem, second: &Problem) -> Result<(), Refusal>
    ensures { let p = problem_of first.now in
        let other = problem_of second.now in
        refusal_of result ≡ both_refusal p other }
{
    check_problem::check_problem(first)?;
    let same = same_tables::layouts_agree(
        first.n,
        first.m,
        first.p.starts,
        first.p.rows,
        first.a.starts,
        first.a.rows,
        first.cones,
        first.alphas,
        first.words,
        second.n,
        second.m,
        second.p.starts,
        second.p.rows,
        second.a.starts,
        second.a.rows,
        second.cones,
        second.alphas,
        second.words,
    );
    if same_tables::checked_alike(
        same,
        first.count,
        first.p.values.len(),
        first.q.len(),
        first.a.values.len(),
        first.b.len(),
        second.count,
        second.p.values.len(),
        second.q.len(),
        second.a.values.len(),
        second.b.len(),
    ) {
        return compare_unknowns(first.n, second.n);
    }
    check_second(first.n, second)
}

// Tests the bounds of check 1 that the pool can exceed: rows, entries of A and cones. Of checks 1 to 7 no more can fail in a pool of two
// problems that pass them with the same n. Returns whether all three hold.
fn bounded(
    m: u32,
    a_values: &[f64],
    cones: &[u32],
    m2: u32,
    a_values2: &[f64],
    cones2: &[u32],
) -> bool
    requires { (m ≤ 65536) × (m2 ≤ 65536) × (length (records cones.now) ≤ 1024) × (length (records cones2.now) ≤ 1024) }
    ensures { result ≡ (leb (m + m2) 65536 && leb (length a_values.now + length a_values2.now) 262144 && leb (length (records cones.now) + length (records cones2.now)) 1024) }
{
    m + m2 <= limit::ROWS
        && a_values.len() + a_values2.len() <= limit::ENTRIES
        && supportedcone::record_count(cones) + supportedcone::record_count(cones2) <= limit::CONES
}

// Compares the length that each output needs (`needs`) with the one that it has (`rooms`).
fn check_rooms(needs: &[usize], rooms: &[usize]) -> Result<(), Refusal>
    ensures { refusal_of result ≡ cond (roomy needs.now rooms.now) 0 11 }
{
    for (i, &need) in needs.iter().enumerate() {
        if rooms.len() <= i || rooms[i] < need {
            return Err(Refusal::Short);
        }
    }
    Ok(())
}

// Makes all checks of the call, for outputs of the lengths `rooms`; the pool is not written, since its sizes are sums. Returns the first
// refusal.
pub fn refuse(first: &Problem, second: &Problem, rooms: &[usize]) -> Result<(), Refusal>
    ensures { let p = problem_of first.now in
        let other = problem_of second.now in
        refusal_of result ≡ pool_refusal p other rooms.now }
{
    check_both(first, second)?;
    if !bounded(
        first.m,
        first.a.values,
        first.cones,
        second.m,
        second.a.values,
        second.cones,
    ) {
        return Err(Refusal::Bound);
    }
    let needs = [
        first.p.starts.len(),
        first.p.rows.len(),
        first.p.values.len(),
        first.q.len(),
        first.a.starts.len(),
        first.a.rows.len() + second.a.rows.len(),
        first.a.values.len() + second.a.values.len(),
        first.b.len() + second.b.len(),
        first.cones.len() + second.cones.len(),
        first.alphas.len() + second.alphas.len(),
        first.words.len() + second.words.len(),
    ];
    check_rooms(&needs, rooms)
}
