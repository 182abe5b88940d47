use crate::{Case, front, room, same};

// The tables of a problem, as a call takes them.
#[derive(Clone, Copy)]
pub struct Problem<'a> {
    pub p_starts: &'a [u32],
    pub p_rows: &'a [u32],
    pub p_values: &'a [f64],
    pub q: &'a [f64],
    pub a_starts: &'a [u32],
    pub a_rows: &'a [u32],
    pub a_values: &'a [f64],
    pub b: &'a [f64],
    pub cones: &'a [u32],
    pub alphas: &'a [f64],
    pub pattern: &'a [u32],
}

impl<'a> Problem<'a> {
    // Returns the problem of a case: u32 lists 2 to 7 and f64 lists 16 to 20.
    pub fn of(case: Case<'a>) -> Problem<'a> {
        Problem {
            p_starts: case.words_at(2),
            p_rows: case.words_at(3),
            p_values: case.values_at(16),
            q: case.values_at(17),
            a_starts: case.words_at(4),
            a_rows: case.words_at(5),
            a_values: case.values_at(18),
            b: case.values_at(19),
            cones: case.words_at(6),
            alphas: case.values_at(20),
            pattern: case.words_at(7),
        }
    }

    // Returns the problem with these tables, of `n` unknowns, `m` rows and `count` patterns.
    pub fn sized(self, n: u32, m: u32, count: u32) -> problemdata::Problem<'a> {
        problemdata::Problem::from_tables(
            n,
            m,
            self.p_starts,
            self.p_rows,
            self.p_values,
            self.q,
            self.a_starts,
            self.a_rows,
            self.a_values,
            self.b,
            self.cones,
            self.alphas,
            count,
            self.pattern,
        )
    }
}

// The eleven tables that a cut writes, each with room for `N` elements. The last is the cone map, or the words of a pattern.
#[derive(Clone, Copy)]
pub struct Tables<const N: usize> {
    pub p_starts: [u32; N],
    pub p_rows: [u32; N],
    pub p_values: [f64; N],
    pub q: [f64; N],
    pub a_starts: [u32; N],
    pub a_rows: [u32; N],
    pub a_values: [f64; N],
    pub b: [f64; N],
    pub cones: [u32; N],
    pub alphas: [f64; N],
    pub last: [u32; N],
}

// The slices that a cut writes.
#[derive(Drop)]
pub struct Outputs<'a> {
    pub p_starts: &'a mut [u32],
    pub p_rows: &'a mut [u32],
    pub p_values: &'a mut [f64],
    pub q: &'a mut [f64],
    pub a_starts: &'a mut [u32],
    pub a_rows: &'a mut [u32],
    pub a_values: &'a mut [f64],
    pub b: &'a mut [f64],
    pub cones: &'a mut [u32],
    pub alphas: &'a mut [f64],
    pub last: &'a mut [u32],
}

impl<const N: usize> Tables<N> {
    // Returns tables that hold `word` and `value` everywhere.
    pub fn filled(word: u32, value: f64) -> Self {
        Tables {
            p_starts: [word; N],
            p_rows: [word; N],
            p_values: [value; N],
            q: [value; N],
            a_starts: [word; N],
            a_rows: [word; N],
            a_values: [value; N],
            b: [value; N],
            cones: [word; N],
            alphas: [value; N],
            last: [word; N],
        }
    }

    // Returns the problem at the front of the tables, which have `lengths` elements of it; the last table is the pattern.
    pub fn problem(&self, lengths: [u32; 11]) -> Problem<'_> {
        let [
            p_starts,
            p_rows,
            p_values,
            q,
            a_starts,
            a_rows,
            a_values,
            b,
            cones,
            alphas,
            pattern,
        ] = lengths;
        Problem {
            p_starts: front(&self.p_starts, p_starts as usize),
            p_rows: front(&self.p_rows, p_rows as usize),
            p_values: front(&self.p_values, p_values as usize),
            q: front(&self.q, q as usize),
            a_starts: front(&self.a_starts, a_starts as usize),
            a_rows: front(&self.a_rows, a_rows as usize),
            a_values: front(&self.a_values, a_values as usize),
            b: front(&self.b, b as usize),
            cones: front(&self.cones, cones as usize),
            alphas: front(&self.alphas, alphas as usize),
            pattern: front(&self.last, pattern as usize),
        }
    }

    // Fills the tables with the values before a call, and returns prefixes with the lengths of a case's outputs, u32 lists 8 to 13
    // and f64 lists 21 to 25.
    pub fn outputs(&mut self, case: Case) -> Outputs<'_> {
        Outputs {
            p_starts: room(&mut self.p_starts, case.words_at(8)),
            p_rows: room(&mut self.p_rows, case.words_at(9)),
            p_values: room(&mut self.p_values, case.values_at(21)),
            q: room(&mut self.q, case.values_at(22)),
            a_starts: room(&mut self.a_starts, case.words_at(10)),
            a_rows: room(&mut self.a_rows, case.words_at(11)),
            a_values: room(&mut self.a_values, case.values_at(23)),
            b: room(&mut self.b, case.values_at(24)),
            cones: room(&mut self.cones, case.words_at(12)),
            alphas: room(&mut self.alphas, case.values_at(25)),
            last: room(&mut self.last, case.words_at(13)),
        }
    }

    // Returns whether the tables begin with the outputs of a case, u32 lists 8 to 13 and f64 lists 21 to 25.
    pub fn hold(&self, case: Case) -> bool {
        same(&self.p_starts, case.words_at(8))
            && same(&self.p_rows, case.words_at(9))
            && same(&self.p_values, case.values_at(21))
            && same(&self.q, case.values_at(22))
            && same(&self.a_starts, case.words_at(10))
            && same(&self.a_rows, case.words_at(11))
            && same(&self.a_values, case.values_at(23))
            && same(&self.b, case.values_at(24))
            && same(&self.cones, case.words_at(12))
            && same(&self.alphas, case.values_at(25))
            && same(&self.last, case.words_at(13))
    }
}

// The tables of a solution, as a joining writes them, each with room for `N` elements.
#[derive(Clone, Copy)]
pub struct Solution<const N: usize> {
    pub x: [f64; N],
    pub s: [f64; N],
    pub z: [f64; N],
    pub scalars: [f64; N],
}

// The slices that a joining writes.
#[derive(Drop)]
pub struct SolutionOutputs<'a> {
    pub x: &'a mut [f64],
    pub s: &'a mut [f64],
    pub z: &'a mut [f64],
    pub scalars: &'a mut [f64],
}

impl<const N: usize> Solution<N> {
    // Returns tables that hold `value` everywhere.
    pub fn filled(value: f64) -> Self {
        Solution {
            x: [value; N],
            s: [value; N],
            z: [value; N],
            scalars: [value; N],
        }
    }

    // Fills the tables with the values before a call, and returns prefixes with the lengths of a case's outputs, f64 lists 20 to 23.
    pub fn outputs(&mut self, case: Case) -> SolutionOutputs<'_> {
        SolutionOutputs {
            x: room(&mut self.x, case.values_at(20)),
            s: room(&mut self.s, case.values_at(21)),
            z: room(&mut self.z, case.values_at(22)),
            scalars: room(&mut self.scalars, case.values_at(23)),
        }
    }

    // Returns whether the tables begin with the outputs of a case, f64 lists 20 to 23.
    pub fn hold(&self, case: Case) -> bool {
        same(&self.x, case.values_at(20))
            && same(&self.s, case.values_at(21))
            && same(&self.z, case.values_at(22))
            && same(&self.scalars, case.values_at(23))
    }
}
