// Checks 9 and 10 of a route, and the sizes of the cut's outputs.
#![tactic(auto)]

ghost use Rattle.std.specs.Prelude.{◌≡◌, ◌≤◌, ◌<◌, cond, length, T, ltb};
ghost use Rattle.layout.specs.General.Lists.{all, written};
ghost use Rattle.layout.specs.Checks.{Sound, first_failing};
ghost use Rattle.layout.specs.Calls.Answers.{route_of};
ghost use Rattle.csc.specs.Matrix.{ColumnsInside};
ghost use Rattle.chordal_info.specs.Sizes.{rows_fit, entries_kept, route_sizes, Fitting};
ghost use Rattle.chordal_info.specs.Routes.{Counted, route_tests};
ghost use Rattle.constants.specs.Refusals.{refusal_of};
ghost use Rattle.problemdata.specs.Tables.{parts_of};

use check_covered::entries_right;
use constants::{Refusal, entry, limit, record, route};
use csc::copy_front;
use problemdata::Problem;

// ---- check 10

// Returns whether check 10 passes, given the blocks' `rows` and `overlaps`.
pub fn rows_right(route: u32, m: u32, rows: u64, overlaps: u64) -> bool
    ensures { result ≡ rows_fit (route_of route) m rows overlaps }
{
    if limit::AUGMENTED_ROWS < rows {
        return false;
    }
    if route == route::STANDARD {
        return m as u64 + rows <= limit::AUGMENTED_ROWS;
    }
    overlaps <= limit::OVERLAPS
}

// ---- the route's checks in order

// Makes check 10 alone, the only one that a joining's route adds to its checks.
pub fn rows_refusal(route: u32, m: u32, rows: u64, overlaps: u64) -> Result<(), Refusal>
    ensures { refusal_of result ≡ cond (rows_fit (route_of route) m rows overlaps) 0 10 }
{
    if rows_right(route, m, rows, overlaps) {
        return Ok(());
    }
    Err(Refusal::TooLarge)
}

// Makes checks 9 and 10 of a whole problem, given its blocks' `rows` and `overlaps`. Returns the first refusal.
pub fn check_route(route: u32, problem: &Problem, rows: u64, overlaps: u64) -> Result<(), Refusal>
    requires sound { Sound problem.now.m problem.now.cones.now problem.now.count problem.now.words.now }
    requires t { T (all (λ r. ltb r problem.now.m) problem.now.a.rows.now) × (length problem.now.b.now ≡ problem.now.m) }
    requires counted { Counted (parts_of problem.now) rows overlaps }
    ensures { refusal_of result ≡ first_failing (route_tests (route_of route) problem.now.m problem.now.a.rows.now problem.now.b.now (parts_of problem.now)) }
{
    if route == route::STANDARD {
        return rows_refusal(route, problem.m, rows, overlaps);
    }
    if !entries_right(
        problem.m,
        problem.cones,
        problem.count,
        problem.words,
        problem.a.rows,
        problem.b,
    ) {
        return Err(Refusal::Uncovered);
    }
    rows_refusal(route, problem.m, rows, overlaps)
}

// ---- the sizes

// Counts the entries that a route keeps of an A with `n` columns: the compact route merges each run of repeated rows into one entry.
pub fn count_entries(route: u32, n: u32, starts: &[u32], rows: &[u32]) -> u32
    requires { ColumnsInside n starts.now rows.now × (length rows.now ≤ 262144) }
    ensures { result ≡ entries_kept (route_of route) n starts.now rows.now }
{
    if route == route::STANDARD {
        return rows.len() as u32;
    }
    csc::count_all_runs(n, starts, rows) as u32
}

const RECORD_WORDS: u32 = record::WORDS as u32;

const ENTRY_WORDS: u32 = entry::WORDS as u32;

// Writes the length of each of the cut's outputs to `out`, from the counts that `check_problem::count_problem` gives.
pub fn write_sizes(
    route: u32,
    n: u32,
    m: u32,
    p_entries: u32,
    a_entries: u32,
    alphas: u32,
    rows: u64,
    overlaps: u64,
    cones: u64,
    out: &mut [u32],
)
    requires in_bounds { 11 ≤ length out.old }
    requires fitting { Fitting (route_of route) n m a_entries rows overlaps cones }
    ensures { out.new ≡ written (route_sizes (route_of route) n m p_entries a_entries alphas rows overlaps cones) out.old }
{
    let mut added = overlaps as u32;
    let mut b = rows as u32;
    let mut cone_words = RECORD_WORDS * cones as u32;
    let mut map_words = ENTRY_WORDS * cones as u32;
    if route == route::STANDARD {
        added = b;
        b += m;
        cone_words += RECORD_WORDS;
        map_words = 0;
    }
    let columns = n + added;
    let starts = columns + 1;
    let entries = a_entries + 2 * added;
    let lengths = [
        starts, p_entries, p_entries, columns, starts, entries, entries, b, cone_words, alphas,
        map_words,
    ];
    copy_front(out, &lengths);
}
