// A problem's tables, as in clarabel's solver/implementations/default/problemdata.rs: the caller lends them.
#![tactic(auto)]

ghost use Rattle.std.specs.Prelude.{◌≡◌};
ghost use Rattle.layout.specs.Problems.Problem.{problem};

use csc::CscMatrix;

// A problem: P and A in compressed columns, the cones as records, α, and `count` patterns in `words`.
#[derive(Clone, Copy)]
pub struct Problem<'a> {
    pub n: u32,
    pub m: u32,
    pub p: CscMatrix<'a>,
    pub q: &'a [f64],
    pub a: CscMatrix<'a>,
    pub b: &'a [f64],
    pub cones: &'a [u32],
    pub alphas: &'a [f64],
    pub count: u32,
    pub words: &'a [u32],
}

impl<'a> Problem<'a> {
    ghost use Rattle.problemdata.specs.Tables.{problem_of};

    // Returns the problem with these tables, in the order in which C callers pass them.
    pub fn from_tables(
        n: u32,
        m: u32,
        p_starts: &'a [u32],
        p_rows: &'a [u32],
        p_values: &'a [f64],
        q: &'a [f64],
        a_starts: &'a [u32],
        a_rows: &'a [u32],
        a_values: &'a [f64],
        b: &'a [f64],
        cones: &'a [u32],
        alphas: &'a [f64],
        count: u32,
        words: &'a [u32],
    ) -> Problem<'a>
        ensures { problem_of result ≡ problem n m p_starts.now p_rows.now p_values.now q.now a_starts.now a_rows.now a_values.now b.now cones.now alphas.now count words.now }
    {
        Problem {
            n,
            m,
            p: CscMatrix {
                starts: p_starts,
                rows: p_rows,
                values: p_values,
            },
            q,
            a: CscMatrix {
                starts: a_starts,
                rows: a_rows,
                values: a_values,
            },
            b,
            cones,
            alphas,
            count,
            words,
        }
    }
}
