// Checks 1 to 7 in document 01's order, for a whole problem and for the inputs of a joining.
#![tactic(auto)]

ghost use Rattle.std.specs.Prelude.{◌≡◌, true, false, ◌&&◌, ◌≤◌, ◌<◌, T, IfOk};
ghost use Rattle.layout.specs.Problems.Problem.{problem};
ghost use Rattle.layout.specs.General.Lists.{all};
ghost use Rattle.layout.specs.Problems.Patterns.{patterns};
ghost use Rattle.layout.specs.Checks.{cones_bounded, cones_read, tree_right, cliques_right};
ghost use Rattle.layout.specs.Calls.Join.{join_bounded, joined_parts};
ghost use Rattle.layout.specs.Calls.Answers.{problem_refusal};
ghost use Rattle.layout.specs.Files.FileWords.{unvalued};
ghost use Rattle.csc.specs.Matrix.{matrix};
ghost use Rattle.sparsity_pattern.specs.Sparsity.{patterns_read_from};
ghost use Rattle.constants.specs.Refusals.{number, refusal_of};
ghost use Rattle.problemdata.specs.Tables.{parts_of, problem_of};
ghost use Rattle.check_problem.specs.Counted.{Counted};
ghost use Rattle.check_problem.specs.Order.{bounds, matrices_refusal, records_refusal, tables_refusal, patterns_refusal, patterns_refusal_from, joined_refusal};

use constants::{Refusal, limit};
use problemdata::Problem;

// Makes check 1 for a joining: bounds on `n`, `m` and the cones.
pub fn join_bounded(n: u32, m: u32, cones: &[u32]) -> bool
    ensures { result ≡ join_bounded n m cones.now }
{
    if limit::UNKNOWNS < n {
        return false;
    }
    if limit::ROWS < m {
        return false;
    }
    supportedcone::cones_bounded(cones)
}

// Makes check 1 for a problem.
pub fn bounded(n: u32, m: u32, a_entries: usize, p_entries: usize, cones: &[u32]) -> bool
    ensures { result ≡ bounds n m a_entries p_entries cones.now }
{
    if limit::ENTRIES < a_entries {
        return false;
    }
    if limit::ENTRIES < p_entries {
        return false;
    }
    join_bounded(n, m, cones)
}

// Makes checks 2 and 3 on A and P; only A may repeat a row in a column.
pub fn check_matrices(
    n: u32,
    m: u32,
    p_starts: &[u32],
    p_rows: &[u32],
    p_entries: usize,
    a_starts: &[u32],
    a_rows: &[u32],
    a_entries: usize,
) -> Result<(), Refusal>
    ensures { refusal_of result ≡ matrices_refusal n m (matrix p_starts.now p_rows.now (unvalued p_entries)) (matrix a_starts.now a_rows.now (unvalued a_entries)) }
{
    if !csc::starts_right(n, a_starts, a_rows, a_entries) {
        return Err(Refusal::Starts);
    }
    if !csc::starts_right(n, p_starts, p_rows, p_entries) {
        return Err(Refusal::Starts);
    }
    if !csc::rows_in_order(m, n, a_starts, a_rows) {
        return Err(Refusal::Rows);
    }
    if !csc::rows_right(n, n, p_starts, p_rows) {
        return Err(Refusal::Rows);
    }
    Ok(())
}

// Makes check 4 except for α: the cone records, their rows, and the lengths of q and b.
pub fn check_records(
    n: u32,
    m: u32,
    q_count: usize,
    b_count: usize,
    cones: &[u32],
) -> Result<(), Refusal>
    requires { cones_bounded cones.now ≡ true }
    ensures { refusal_of result ≡ records_refusal n m (unvalued q_count) (unvalued b_count) cones.now }
{
    supportedcone::check_cones(m, cones)?;
    if q_count != n as usize {
        return Err(Refusal::Cones);
    }
    if b_count != m as usize {
        return Err(Refusal::Cones);
    }
    Ok(())
}

// Makes checks 1 to 3, and check 4 except for α, on a problem whose float tables have these lengths; no check depends on a float's value.
fn check_tables(
    n: u32,
    m: u32,
    p_starts: &[u32],
    p_rows: &[u32],
    p_entries: usize,
    q_count: usize,
    a_starts: &[u32],
    a_rows: &[u32],
    a_entries: usize,
    b_count: usize,
    cones: &[u32],
) -> Result<(), Refusal>
    ensures { refusal_of result ≡ tables_refusal n m (matrix p_starts.now p_rows.now (unvalued p_entries)) (unvalued q_count) (matrix a_starts.now a_rows.now (unvalued a_entries)) (unvalued b_count) cones.now }
{
    if !bounded(n, m, a_entries, p_entries, cones) {
        return Err(Refusal::Bound);
    }
    check_matrices(
        n, m, p_starts, p_rows, p_entries, a_starts, a_rows, a_entries,
    )?;
    check_records(n, m, q_count, b_count, cones)
}

// Finds which of checks 5, 6 and 7 is the first to fail on `count` patterns in `words`, none of which may name a cone before `least`. At least one fails: if 5
// and 6 pass, it is 7.
fn refuse_patterns(cones: &[u32], least: u64, count: u32, words: &[u32]) -> Refusal
    requires { (patterns_read_from cones.now least count words.now && all tree_right (patterns count words.now) && all cliques_right (patterns count words.now)) ≡ false }
    ensures { number result ≡ patterns_refusal_from cones.now least count words.now }
{
    if !sparsity_pattern::check_patterns(cones, least, count, words) {
        return Refusal::Patterns;
    }
    if !check_cliques::trees_right(count, words) {
        return Refusal::Tree;
    }
    Refusal::Cliques
}

// What the checks of patterns count: block rows, overlaps and new cones.
#[derive(Clone, Copy)]
pub struct Counts {
    pub rows: u64,
    pub overlaps: u64,
    pub cones: u64,
}

// Makes checks 5, 6 and 7 once 1 and 4 have passed: a single pass over the patterns decides whether they hold and counts rows, overlaps and cones.
// Where one fails, checks 5 and 6 are made from the pattern on at which the pass stopped, in order to find which.
fn count_patterns(m: u32, cones: &[u32], count: u32, words: &[u32]) -> Result<Counts, Refusal>
    requires { (m ≤ 65536) × T (cones_bounded cones.now) × T (cones_read m cones.now) }
    ensures refusal_value { refusal_of result ≡ patterns_refusal cones.now count words.now }
    ensures counts { IfOk result (Counted (joined_parts cones.now count words.now)) }
{
    match check_patterns::patterns_hold(cones, count, words) {
        Ok(sums) => {
            let records = supportedcone::record_count(cones);
            Ok(Counts {
                rows: m as u64 + sums.dim - sums.cut,
                overlaps: sums.overlaps,
                cones: records as u64 + sums.cliques - count as u64,
            })
        }
        Err(stop) => Err(refuse_patterns(cones, stop.least, stop.left, &words[stop.next..])),
    }
}

// Makes checks 1 to 7 on a problem whose float tables have these lengths.
pub fn check_lengths(
    n: u32,
    m: u32,
    p_starts: &[u32],
    p_rows: &[u32],
    p_entries: usize,
    q_count: usize,
    a_starts: &[u32],
    a_rows: &[u32],
    a_entries: usize,
    b_count: usize,
    cones: &[u32],
    alpha_count: usize,
    count: u32,
    words: &[u32],
) -> Result<(), Refusal>
    ensures { let p = problem n m p_starts.now p_rows.now (unvalued p_entries) (unvalued q_count) a_starts.now a_rows.now (unvalued a_entries) (unvalued b_count) cones.now (unvalued alpha_count) count words.now in
        refusal_of result ≡ problem_refusal p }
{
    check_tables(
        n, m, p_starts, p_rows, p_entries, q_count, a_starts, a_rows, a_entries, b_count, cones,
    )?;
    if !supportedcone::alphas_counted(cones, alpha_count) {
        return Err(Refusal::Cones);
    }
    count_patterns(m, cones, count, words)?;
    Ok(())
}

// Makes checks 1 to 7 on a problem, where each cone is read with its own values of α. Returns the first refusal, or the counts.
pub fn count_problem(problem: &Problem) -> Result<Counts, Refusal>
    ensures refusal_value { refusal_of result ≡ problem_refusal (problem_of problem.now) }
    ensures counts { IfOk result (Counted (parts_of problem.now)) }
{
    check_tables(
        problem.n,
        problem.m,
        problem.p.starts,
        problem.p.rows,
        problem.p.values.len(),
        problem.q.len(),
        problem.a.starts,
        problem.a.rows,
        problem.a.values.len(),
        problem.b.len(),
        problem.cones,
    )?;
    if !supportedcone::alphas_as_many(problem.cones, problem.alphas) {
        return Err(Refusal::Cones);
    }
    count_patterns(problem.m, problem.cones, problem.count, problem.words)
}

// Makes the same checks. Returns the first refusal.
pub fn check_problem(problem: &Problem) -> Result<(), Refusal>
    ensures { refusal_of result ≡ problem_refusal (problem_of problem.now) }
{
    count_problem(problem)?;
    Ok(())
}

// Makes checks 1, 4, 5, 6 and 7 on the inputs of a joining. Returns the first refusal, or the counts.
pub fn check_joined(
    n: u32,
    m: u32,
    cones: &[u32],
    count: u32,
    words: &[u32],
) -> Result<Counts, Refusal>
    ensures refusal_value { refusal_of result ≡ joined_refusal n m cones.now count words.now }
    ensures counts { IfOk result (Counted (joined_parts cones.now count words.now)) }
{
    if !join_bounded(n, m, cones) {
        return Err(Refusal::Bound);
    }
    supportedcone::check_cones(m, cones)?;
    count_patterns(m, cones, count, words)
}
