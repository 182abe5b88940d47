// The problem of a file (Q-2), with its tables as slices of its words and of the doubles that these form in pairs: gives its sizes on the compact
// route, and its cut.
#![tactic(auto)]

ghost use Rattle.std.specs.Prelude.{◌≡◌};
ghost use Rattle.layout.specs.General.Floats.{floats};
ghost use Rattle.layout.specs.Problems.Problem.{compact};
ghost use Rattle.layout.specs.Rows.Blocks.{block_row_count};
ghost use Rattle.layout.specs.Checks.{layout};
ghost use Rattle.layout.specs.Calls.Cut.{augmented, constrained, constrained_of, HoldsConstrained};
ghost use Rattle.layout.specs.Files.File.{problem_of as tables_problem};
ghost use Rattle.layout.specs.Files.FileWords.{pairs_of, word_tables};
ghost use Rattle.layout.specs.Calls.Sizes.{Sizes};
ghost use Rattle.cut_standard.specs.Fits.{ConstrainedFits};
ghost use Rattle.file_shape.specs.Parts.{WellShaped};
ghost use Rattle.compact_parts.specs.Problem.{constraints_of};
ghost use Rattle.constants.specs.Refusals.{refusal_of};
ghost use Rattle.problemdata.specs.Tables.{problem_of};

use constants::{Refusal, file_table, header, route};
use csc::CscMatrix;
use problemdata::Problem;

// Returns the problem whose tables are in a file's `words`; `values` are the doubles that the words form in pairs.
fn problem_in<'a>(words: &'a [u32], values: &'a [f64]) -> Problem<'a>
    requires { WellShaped words.now × (values.now ≡ floats (pairs_of words.now)) }
    ensures { problem_of result ≡ tables_problem (word_tables words.now) }
{
    Problem {
        n: words[header::N],
        m: words[header::M],
        p: CscMatrix {
            starts: file_views::words_of(words, file_table::P_STARTS),
            rows: file_views::words_of(words, file_table::P_ROWS),
            values: file_views::doubles_of(words, values, file_table::P_VALUES),
        },
        q: file_views::doubles_of(words, values, file_table::Q),
        a: CscMatrix {
            starts: file_views::words_of(words, file_table::A_STARTS),
            rows: file_views::words_of(words, file_table::A_ROWS),
            values: file_views::doubles_of(words, values, file_table::A_VALUES),
        },
        b: file_views::doubles_of(words, values, file_table::B),
        cones: file_views::words_of(words, file_table::CONES),
        alphas: file_views::doubles_of(words, values, file_table::ALPHAS),
        count: words[header::PATTERNS],
        words: file_views::words_of(words, file_table::PATTERN_WORDS),
    }
}

// Checks the problem of a file on the compact route, and writes the lengths of the compact problem's tables to `out`. Returns the first
// refusal.
pub fn size_tables(words: &[u32], values: &[f64], out: &mut [u32]) -> Result<(), Refusal>
    requires { WellShaped words.now × (values.now ≡ floats (pairs_of words.now)) }
    ensures { Sizes 1 (tables_problem (word_tables words.now)) out.old out.new (refusal_of result) }
{
    decomp::sizes(route::COMPACT, &problem_in(words, values), out)
}

// Writes A, b and the cones of the compact problem, which has `rows` augmented rows and `k` overlap columns.
pub fn cut_constraints(
    words: &[u32],
    values: &[f64],
    rows: usize,
    k: usize,
    a_starts_out: &mut [u32],
    a_rows_out: &mut [u32],
    a_values_out: &mut [f64],
    b_out: &mut [f64],
    cones_out: &mut [u32],
)
    requires well_shaped { WellShaped words.now × (values.now ≡ floats (pairs_of words.now)) }
    requires fact { let p = constraints_of (word_tables words.now) in
        let out = constrained a_starts_out.old a_rows_out.old a_values_out.old b_out.old cones_out.old in
        ConstrainedFits compact p k out × (rows ≡ block_row_count (layout p)) }
    ensures { let p = constraints_of (word_tables words.now) in
        let before = constrained a_starts_out.old a_rows_out.old a_values_out.old b_out.old cones_out.old in
        let after = constrained a_starts_out.new a_rows_out.new a_values_out.new b_out.new cones_out.new in
        HoldsConstrained 0 (constrained_of (augmented compact p)) before after }
{
    cut_constraints::decomp_augment_compact(
        words[header::N],
        words[header::M],
        file_views::words_of(words, file_table::A_STARTS),
        file_views::words_of(words, file_table::A_ROWS),
        file_views::doubles_of(words, values, file_table::A_VALUES),
        file_views::doubles_of(words, values, file_table::B),
        file_views::words_of(words, file_table::CONES),
        words[header::PATTERNS],
        file_views::words_of(words, file_table::PATTERN_WORDS),
        rows,
        k,
        a_starts_out,
        a_rows_out,
        a_values_out,
        b_out,
        cones_out,
    );
}
