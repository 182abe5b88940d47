// Same layout: whether two problems agree in n, m, cone records, pattern words, exponents, and the starts and rows of A and P.
#![tactic(auto)]

ghost use Rattle.layout.specs.Calls.SameLayout.{SameLayout};
ghost use Rattle.constants.specs.Refusals.{refusal_of};
ghost use Rattle.problemdata.specs.Tables.{problem_of};

use constants::Refusal;
use problemdata::Problem;

// Writes 1 or 0 to `out[0]`: whether the layouts are the same. Makes checks 1 to 7 on the first problem, then on the second unless they would read the
// same as of the first, then check 11. Returns the first refusal.
pub fn same_layout(first: &Problem, second: &Problem, out: &mut [u32]) -> Result<(), Refusal>
    ensures { let p = problem_of first.now in
        let other = problem_of second.now in
        SameLayout p other out.old out.new (refusal_of result) }
{
    check_problem::check_problem(first)?;
    let same = same_tables::layouts_agree(
        first.n,
        first.m,
        first.p.starts,
        first.p.rows,
        first.a.starts,
        first.a.rows,
        first.cones,
        first.alphas,
        first.words,
        second.n,
        second.m,
        second.p.starts,
        second.p.rows,
        second.a.starts,
        second.a.rows,
        second.cones,
        second.alphas,
        second.words,
    );
    if !same_tables::checked_alike(
        same,
        first.count,
        first.p.values.len(),
        first.q.len(),
        first.a.values.len(),
        first.b.len(),
        second.count,
        second.p.values.len(),
        second.q.len(),
        second.a.values.len(),
        second.b.len(),
    ) {
        check_problem::check_problem(second)?;
    }
    if out.len() < 1 {
        return Err(Refusal::Short);
    }
    out[0] = same_tables::word_of(same);
    Ok(())
}
